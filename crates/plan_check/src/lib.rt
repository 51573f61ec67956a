// The blocks of a plan judged one after another, each with its events before the next.
#![tactic(auto)]

ghost use Rattle.std.specs.Prelude.{◌≡◌, ◌+◌, ◌*◌, ◌/◌, ◌<◌, length};
ghost use Rattle.model.specs.File.{fault, block_at};
ghost use Rattle.refusal.specs.Refusals.{number_of, code_of, fault_code, fault_place};
ghost use Rattle.plan_model.specs.Plan.{plan_archive, piece_fault, piece_fault_at, plan_fault};

use block_read::archive_in;
use model::BLOCK_BYTES;
use plan_block::piece_fault;
use refusal::{Fault, Refusal};

// The archive of a plan; 0 where it has no whole block.
pub fn archive_of(plan: &[u8]) -> u32
    ensures { result ≡ plan_archive plan.now }
{
    if plan.len() < BLOCK_BYTES {
        return 0;
    }
    archive_in(&plan[0..512])
}

// How many blocks so many bytes are, a part at the end counted.
pub fn pieces(n: usize) -> usize
    ensures { result ≡ (n + 511) / 512 }
{
    let whole = n / 512;
    if n % 512 == 0 {
        return whole;
    }
    whole + 1
}

// The k-th block.
fn fault_at(plan: &[u8], archive: u32, k: usize) -> Result<(), Refusal>
    requires { 512 * k < length plan.now }
    ensures { code_of result ≡ piece_fault archive k (block_at plan.now k) }
{
    let at = 512 * k;
    let end = plan.len();
    if end - at < BLOCK_BYTES {
        return piece_fault(archive, k, &plan[at..end]);
    }
    piece_fault(archive, k, &plan[at..at + 512])
}

// A fault of the k-th block, with its place; a bad length has the place 0.
pub fn placed(refusal: Refusal, k: usize) -> Fault<u16>
    requires { k < 65536 }
    ensures { fault (number_of result.refusal) result.place ≡ piece_fault_at (number_of refusal) k }
{
    let place = match refusal {
        Refusal::BadLength => 0,
        _ => k as u16,
    };
    Fault { refusal, place }
}

// The first fault of a plan.
pub fn plan_fault(plan: &[u8]) -> Result<(), Fault<u16>>
    ensures { fault (fault_code result) (fault_place result) ≡ plan_fault plan.now }
{
    let archive = archive_of(plan);
    for k in 0..pieces(plan.len()) {
        if let Err(refusal) = fault_at(plan, archive, k) {
            return Err(placed(refusal, k));
        }
    }
    Ok(())
}
