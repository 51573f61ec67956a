// The date of a record.
#![tactic(auto, using(crate::proofs::Date::ways))]

ghost use Rattle.std.specs.Prelude.{◌≡◌, ◌<◌};
ghost use Rattle.model.specs.Date.{is_leap, days_of, is_date};

// A year of 366 days.
fn is_leap(y: u16) -> bool
    ensures { result ≡ is_leap y }
{
    y % 4 == 0 && (y % 100 != 0 || y % 400 == 0)
}

// The days of a month in a year that is not leap, as 1990; 0 where there is no such month.
fn days(m: u8) -> u8
    ensures { result ≡ days_of 1990 m }
{
    match m {
        2 => 28,
        4 | 6 | 9 | 11 => 30,
        1..=12 => 31,
        _ => 0,
    }
}

// A real date of the years 1990 to 2199. Months that there are not are refused first, so that the match looks up a number without a
// branch; the 29th of February is left to the leap rule. Each test returns by itself: as one chain two of its goals stayed open.
pub fn is_date(y: u16, m: u8, d: u8) -> bool
    ensures { result ≡ is_date y m d }
{
    if y < 1990 {
        return false;
    }
    if 2199 < y {
        return false;
    }
    if m < 1 {
        return false;
    }
    if 12 < m {
        return false;
    }
    if d < 1 {
        return false;
    }
    if d <= days(m) {
        return true;
    }
    if m != 2 {
        return false;
    }
    if d != 29 {
        return false;
    }
    is_leap(y)
}
