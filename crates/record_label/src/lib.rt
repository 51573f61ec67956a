// The label of a record.
#![tactic(auto, using(crate::proofs::Ways::ways))]

ghost use Rattle.std.specs.Prelude.{◌≡◌, ◌+◌, ◌≤◌, ◌<◌, length};
ghost use Rattle.model.specs.Record.{text_length, is_label};
ghost use Rattle.model.specs.Replay.{lower, same_label};
ghost use Rattle.record_label.specs.Follow.{follows, follow_to};

// How many bytes stand before the first zero.
pub fn text_length(t: &[u8]) -> usize
    ensures { (result ≡ text_length t.now) × (result ≤ length t.now) }
{
    for i in 0..t.len() {
        if t[i] == 0 {
            return i;
        }
    }
    t.len()
}

// In a label y may stand behind x: a zero behind no space, or a byte of hexadecimal 20 to 7E behind no zero.
#[tactic(auto, unfolding(crate::specs::Follow::follows))]
fn follows(x: u8, y: u8) -> bool
    ensures { result ≡ follows x y }
{
    ((y == 0) & (x != 32)) | ((x != 0) & ((32 <= y) & (y <= 126)))
}

// Each of the n bytes behind a place may stand behind the one before it. No byte ends the loop early: all are judged at once. Inlined, so
// that the loop over 16 is unrolled.
#[inline(always)]
fn run_follows(t: &[u8], at: usize, n: usize) -> bool
    requires { at + n < length t.now }
    ensures { result ≡ follow_to t.now at n }
{
    let mut fine = true;
    for i in 0..n {
        fine = fine & follows(t[at + i], t[at + i + 1]);
    }
    fine
}

// The same of 16 bytes. A function of its own, since a count that is known is judged in half the time.
fn sixteen_follow(t: &[u8], at: usize) -> bool
    requires { at + 16 < length t.now }
    ensures { result ≡ follow_to t.now at 16 }
{
    run_follows(t, at, 16)
}

// The same of the n bytes behind the first. Of 31, as a record has them, the first 16 and the last 16 are judged.
fn all_follow(t: &[u8], n: usize) -> bool
    requires { n < length t.now }
    ensures { result ≡ follow_to t.now 0 n }
{
    if n != 31 {
        return run_follows(t, 0, n);
    }
    if !sixteen_follow(t, 0) {
        return false;
    }
    sixteen_follow(t, 15)
}

// A text of at least one byte, no space first or last, then zeros.
pub fn is_label(t: &[u8]) -> bool
    ensures { result ≡ is_label t.now }
{
    if t.len() < 1 {
        return false;
    }
    let last = t.len() - 1;
    if !all_follow(t, last) {
        return false;
    }
    if t[0] < 33 {
        return false;
    }
    if 126 < t[0] {
        return false;
    }
    t[last] != 32
}

// A to Z as a to z.
pub fn lower(x: u8) -> u8
    ensures { result ≡ lower x }
{
    if (65 <= x) & (x <= 90) {
        return x + 32;
    }
    x
}

// The same label, in capitals or small letters. No byte ends the loop early: all are compared at once.
pub fn same_label(a: &[u8], b: &[u8]) -> bool
    requires { (length a.now ≡ 32) × (length b.now ≡ 32) }
    ensures { result ≡ same_label a.now b.now }
{
    let mut equal = true;
    for i in 0..32 {
        equal = equal & (lower(a[i]) == lower(b[i]));
    }
    equal
}
