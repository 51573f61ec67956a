// The checks of a file, in the stated order: its blocks, its records, its vector. Records and vector are checked alike in both forms: behind
// a base vector and with a list, which in an SAB1 file are all zero and all eight.
#![tactic(auto)]

ghost use Rattle.std.specs.Prelude.{◌≡◌, [], ◌-◌, ◌*◌, ◌<◌, ◌≤◌, IfSome, OnOk, length};
ghost use Rattle.model.specs.Lengths.{log_places};
ghost use Rattle.model.specs.Log.{vector_of, vector_on, no_counts};
ghost use Rattle.model.specs.Block.{vector_in};
ghost use Rattle.model.specs.File.{fault, or_else, records_counted, file_records, file_fault, checked_fault};
ghost use Rattle.base_model.specs.Base.{is_listed};
ghost use Rattle.sab2_model.specs.Sab2.{records_fault_on, counts_fault_on};
ghost use Rattle.log_closure.specs.Tables.{Indexed};
ghost use Rattle.log_check.specs.declared.Layout.TheVariants.{File};
ghost use Rattle.log_check.specs.Places.{laid_at, Laid};
ghost use Rattle.log_check.specs.InOrder.{found};
ghost use Rattle.log_check.specs.Told.{held_in};
ghost use Rattle.refusal.specs.Refusals.{fault_code, fault_place};
ghost use Rattle.read_file_check.specs.Listed.{unlisted_from, asked_to};
ghost use Rattle.read_file_check.specs.Outcome.{Judges, left, records_left, tables_left, file_tables};
ghost use Rattle.read_file_check.specs.Told.{or_end, held_left};

use base_head::is_listed;
use block_read::{count_in, vector_in};
use log_check::{Layout, offset, scan};
use log_closure::Tables;
use model::{BLOCK_BYTES, LOG_PLACES};
use read_file_blocks::{blocks_fault, same_counts, whole_blocks};
use refusal::{Fault, Refusal};
use vector::{Vector, zero_vector};

// How many records n blocks count.
pub fn records_counted(file: &[u8], n: usize) -> usize
    requires { (length file.now ≡ 512 * n) × (n ≤ 186) }
    ensures { (result ≡ records_counted file.now) × (result < 1366) }
{
    if n == 0 {
        return 0;
    }
    let last = n - 1;
    let at = 512 * last;
    6 * last + usize::from(count_in(&file[at..at + 512]))
}

// The list names the unit; it names none above 7.
fn names(list: u8, unit: u8) -> bool
    ensures { result ≡ is_listed list unit }
{
    if 7 < unit {
        return false;
    }
    is_listed(list, usize::from(unit))
}

// The first of n records of a unit that the list does not name.
fn first_unlisted(part: &[u8], list: u8, n: usize) -> Option<usize>
    requires { (n ≤ log_places) × Laid File part.now n }
    ensures first { or_end n result ≡ unlisted_from list (laid_at File part.now) 0 n }
    ensures below { IfSome result (λ i. i < n) }
{
    for i in 0..n {
        if !names(list, part[offset(Layout::File, i)]) {
            return Some(i);
        }
    }
    None
}

// How many of n records the list is asked of: those before the first fault, and the one that has it, if it is well formed.
fn asked_to(scanned: Result<Vector, Fault<usize>>, n: usize) -> usize
    requires { fault_place scanned ≤ log_places }
    ensures { result ≡ asked_to (found (fault_code scanned) (fault_place scanned)) n }
{
    match scanned {
        Ok(_) => n,
        Err(fault) => match fault.refusal {
            Refusal::Malformed => fault.place,
            _ => fault.place + 1,
        },
    }
}

// The records of n blocks, of which the first has this place, are judged one after another; a 513th is one too many. Those before the first
// fault that needs no list are noted in the tables; without a fault all are counted.
fn records_fault(
    part: &[u8],
    n: usize,
    folded: Vector,
    list: u8,
    first: usize,
    tables: &mut Tables,
) -> Result<Vector, Fault<u8>>
    requires { (length part.now ≡ 512 * n) × (n ≤ 186) × (first ≤ 100) × (records_counted part.now ≤ 6 * n) }
    ensures judges { Judges list folded.counts first part.now (fault_code result) (fault_place result) (held_in result) tables.new.places tables.new.seens }
    ensures leaves { left (held_left folded.counts part.now tables.old.places tables.old.seens result) tables.new.places tables.new.seens ≡ records_left folded.counts part.now tables.old.places tables.old.seens }
{
    let total = records_counted(part, n);
    let m = total.min(LOG_PLACES);
    let scanned = scan(
        folded,
        part,
        Layout::File,
        m,
        &mut tables.places,
        &mut tables.seens,
    );
    if let Some(u) = first_unlisted(part, list, asked_to(scanned, m)) {
        return Err(Fault {
            refusal: Refusal::Unlisted,
            place: (first + u / 6) as u8,
        });
    }
    let held = match scanned {
        Ok(held) => held,
        Err(Fault { refusal, place }) => {
            return Err(Fault {
                refusal,
                place: (first + place / 6) as u8,
            });
        }
    };
    if LOG_PLACES < total {
        return Err(Fault {
            refusal: Refusal::FullLog,
            place: (first + 85) as u8,
        });
    }
    Ok(held)
}

// The first fault of what the blocks of a file of n blocks hold: of its records, then of its vector, which stands in its first block, against
// their counts. The blocks of records stand at a place of the file.
pub fn held_fault(
    block: &[u8],
    part: &[u8],
    n: usize,
    folded: Vector,
    list: u8,
    first: usize,
    tables: &mut Tables,
) -> Result<(), Fault<u8>>
    requires { (length block.now ≡ 512) × (length part.now ≡ 512 * (n - first)) × (1 ≤ n) × (n ≤ 186) × (first ≤ n) × (first ≤ 100) × (records_counted part.now ≤ 6 * (n - first)) }
    ensures outright { fault (fault_code result) (fault_place result) ≡ or_else (records_fault_on list folded.counts first [] 0 (file_records part.now)) (counts_fault_on folded.counts n (vector_in block.now) (file_records part.now)) }
    ensures leaves { tables.new ≡ tables_left folded.counts part.now tables.old }
    ensures holds { OnOk result (Indexed folded.counts (laid_at File part.now) (records_counted part.now) (file_records part.now) (vector_on folded.counts (file_records part.now)) tables.new.places tables.new.seens) }
{
    let held = records_fault(part, n - first, folded, list, first, tables)?;
    if !same_counts(vector_in(block), held) {
        return Err(Fault {
            refusal: Refusal::BadFile,
            place: (n - 1) as u8,
        });
    }
    Ok(())
}

// The first fault of an SAB1 file of n blocks: of its blocks, then of what they hold. The records before the first fault of a record are noted
// in the tables, once the blocks have none.
pub fn file_fault_into(file: &[u8], n: usize, tables: &mut Tables) -> Result<(), Fault<u8>>
    requires { (length file.now ≡ 512 * n) × (1 ≤ n) × (n ≤ 86) }
    ensures outright { fault (fault_code result) (fault_place result) ≡ file_fault file.now }
    ensures leaves { tables.new ≡ file_tables file.now tables.old }
    ensures holds { OnOk result (Indexed no_counts (laid_at File file.now) (records_counted file.now) (file_records file.now) (vector_of (file_records file.now)) tables.new.places tables.new.seens) }
{
    blocks_fault(file, n)?;
    let none = zero_vector();
    held_fault(&file[0..512], file, n, none, 255, 0, tables)
}

// The first fault of a file of n blocks.
pub fn file_fault(file: &[u8], n: usize) -> Result<(), Fault<u8>>
    requires { (length file.now ≡ 512 * n) × (1 ≤ n) × (n ≤ 86) }
    ensures { fault (fault_code result) (fault_place result) ≡ file_fault file.now }
{
    let mut tables = Tables::fresh();
    file_fault_into(file, n, &mut tables)
}

// BadLength for a file that is not of 1 to 86 blocks, then its first fault.
pub fn checked_fault(file: &[u8]) -> Result<(), Fault<u8>>
    ensures { fault (fault_code result) (fault_place result) ≡ checked_fault file.now }
{
    if !whole_blocks(file) {
        return Err(Fault {
            refusal: Refusal::BadLength,
            place: 0,
        });
    }
    file_fault(file, file.len() / BLOCK_BYTES)
}
