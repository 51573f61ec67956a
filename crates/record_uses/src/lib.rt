// The operation of a record, and which fields an operation uses.
#![tactic(auto, unfolding(model::specs::Record::uses_object, model::specs::Record::uses_folder, model::specs::Record::uses_label, model::specs::Record::uses_mark))]

ghost use Rattle.std.specs.Prelude.{◌≡◌, ◌≤◌, ◌&&◌, leb};
ghost use Rattle.model.specs.Record.{uses_object, uses_folder, uses_label, uses_mark};
ghost use Rattle.record_uses.specs.Operations.{number_of};

// What a record does, with the number that stands for it in the record.
#[derive(Clone, Copy, Debug, PartialEq, Eq)]
pub enum Operation {
    MakeFolder = 1,
    MakeTrace = 2,
    Store = 3,
    Remove = 4,
    Rename = 5,
    Settle = 6,
    Move = 7,
}

impl Operation {
    // The operation of a number that is one.
    pub fn numbered(number: u8) -> Operation
        requires { (1 ≤ number) × (number ≤ 7) }
        ensures { number_of result ≡ number }
    {
        match number {
            1 => Operation::MakeFolder,
            2 => Operation::MakeTrace,
            3 => Operation::Store,
            4 => Operation::Remove,
            5 => Operation::Rename,
            6 => Operation::Settle,
            _ => Operation::Move,
        }
    }
}

impl From<Operation> for u8 {
    ghost from_gives = { λ operation number. number ≡ number_of operation };

    fn from(operation: Operation) -> u8 {
        operation as u8
    }
}

// A number is that of an operation.
pub fn is_operation(number: u8) -> bool
    ensures { result ≡ (leb 1 number && leb number 7) }
{
    1 <= number && number <= 7
}

// ---- fields, of any number: what is asked of a record is asked before its operation is known to be one

// Store, remove, rename, settle and move.
pub fn uses_object(op: u8) -> bool
    ensures { result ≡ uses_object op }
{
    3 <= op
}

// The makes and move.
pub fn uses_folder(op: u8) -> bool
    ensures { result ≡ uses_folder op }
{
    (op <= 2) | (op == 7)
}

// The makes, rename and move.
pub fn uses_label(op: u8) -> bool
    ensures { result ≡ uses_label op }
{
    (op <= 2) | ((op == 5) | (op == 7))
}

// Make trace and store.
pub fn uses_mark(op: u8) -> bool
    ensures { result ≡ uses_mark op }
{
    op == 2 || op == 3
}
