// Why a call says no, or a record stands aside.
#![tactic(auto)]

ghost use Rattle.std.specs.Prelude.{◌≡◌};
ghost use Rattle.refusal.specs.Refusals.{number_of, code_of};

use std::fmt;

// One line of the refusal table, with its number. Of 31, which only an SAB2 file is refused with, see `sab2_check`.
#[derive(Clone, Copy, Debug, PartialEq, Eq)]
pub enum Refusal {
    BadBuffer = 1,
    BadLength = 2,
    BadLetters = 3,
    BadSum = 4,
    BadHeader = 5,
    OtherArchive = 6,
    Malformed = 7,
    NotNext = 8,
    NotClosed = 9,
    OtherBytes = 10,
    FullLog = 11,
    NoObject = 12,
    NoFolder = 13,
    WrongKind = 14,
    LabelHeld = 15,
    NotEmpty = 16,
    UnseenChange = 17,
    NotAside = 18,
    UnsoundState = 19,
    BadFile = 20,
    BadUnit = 21,
    StrokeInLabel = 24,
    IntoItself = 25,
    Unlisted = 26,
    BelowBase = 27,
    LastNumber = 28,
    FoldedRecords = 29,
    NotAnEvent = 30,
}

// A refusal, and the place of what it is about: that of a block in a file or a plan, or of a record among others.
#[derive(Clone, Copy, Debug, PartialEq, Eq)]
pub struct Fault<P> {
    pub refusal: Refusal,
    pub place: P,
}

impl From<Refusal> for u8 {
    ghost from_gives = { λ refusal number. number ≡ number_of refusal };

    fn from(refusal: Refusal) -> u8 {
        refusal as u8
    }
}

// The number that stands for an answer: 0 if it is no refusal.
pub fn code<T: Drop>(answer: Result<T, Refusal>) -> u8
    ensures { result ≡ code_of answer }
{
    match answer {
        Ok(_) => 0,
        Err(refusal) => u8::from(refusal),
    }
}

impl fmt::Display for Refusal {
    fn fmt<W: fmt::Write>(&self, f: &mut fmt::Formatter<W>) -> fmt::Result {
        f.write_str(match self {
            Refusal::BadBuffer => "a lent buffer is not of its length",
            Refusal::BadLength => "a block, a file, a row or a plan is not of its length",
            Refusal::BadLetters => "the letters of the form do not stand first",
            Refusal::BadSum => "a sum differs",
            Refusal::BadHeader => "a header is not one, or an unused place is not zero",
            Refusal::OtherArchive => "another archive",
            Refusal::Malformed => "a record or a wish is malformed",
            Refusal::NotNext =>
                "a number is not its unit's next, or seen is above the records held",
            Refusal::NotClosed => "seen is not closed",
            Refusal::OtherBytes => "a held identity with other bytes",
            Refusal::FullLog => "the log is full",
            Refusal::NoObject => "the object is absent",
            Refusal::NoFolder => "the folder is absent",
            Refusal::WrongKind => "a trace in place of a folder, or a folder in place of a trace",
            Refusal::LabelHeld => "the folder has an entry of that label",
            Refusal::NotEmpty => "the folder to remove has entries",
            Refusal::UnseenChange => "a change is unseen",
            Refusal::NotAside => "the record to settle does not stand aside",
            Refusal::UnsoundState => "the log, the list or the base is not sound",
            Refusal::BadFile => "a file's blocks disagree, or its ranks do not rise",
            Refusal::BadUnit => "the call's own unit is above 7",
            Refusal::StrokeInLabel => "a label has a stroke",
            Refusal::IntoItself => "the folder of a move is its object or lies below it",
            Refusal::Unlisted => "a unit is not listed",
            Refusal::BelowBase => "the base vector is not covered",
            Refusal::LastNumber => "the unit has used its last number",
            Refusal::FoldedRecords => "records are folded",
            Refusal::NotAnEvent => "an event of a plan is not one",
        })
    }
}
