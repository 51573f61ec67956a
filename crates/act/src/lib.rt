// Acting: a wish is given its number and the held vector, judged, and put behind the records of the log.
#![tactic(auto)]

ghost use Rattle.std.specs.Prelude.{◌≡◌, true, [], ◌*◌, ◌<◌, length, get_or, replicate};
ghost use Rattle.model.specs.Lengths.{record_size, log_size, log_places, tree_size};
ghost use Rattle.model.specs.Bytes.{put_at};
ghost use Rattle.model.specs.Record.{well_formed};
ghost use Rattle.model.specs.Replay.{judge as judge_of, reason_of};
ghost use Rattle.model.specs.Table.{work_bytes};
ghost use Rattle.base_model.specs.Base.{tree_of};
ghost use Rattle.call_model.specs.Outcome.{outcome, act_of, act_work};
ghost use Rattle.tree_table.specs.Rows.{tree_in};
ghost use Rattle.tree_maps.specs.Keys.{register_size};
ghost use Rattle.tree_lookup.specs.Roles.{Holds};
ghost use Rattle.refusal.specs.Refusals.{code_of};
ghost use Rattle.state_check.specs.Stands.{Stands};
ghost use Rattle.act.specs.Acted.{acted_on, worked_on};

use act_wish::{check_early, stamp};
use call_guard::open;
use model::{RECORD_BYTES, TREE_BYTES};
use refusal::Refusal;
use state_check::State;
use tree_maps::REGISTER;
use tree_table::Size;

// ---- the reason

// The reason under which a record would stand aside behind the tree that a table and a register hold.
fn reason_on(rec: &[u8], table: &[u8], register: &[u16], size: Size) -> Result<(), Refusal>
    requires { (well_formed rec.now ≡ true) × Holds table.now register.now size.entries size.asides }
    ensures { code_of result ≡ reason_of (judge_of rec.now (tree_in table.now size.entries size.asides)) }
{
    // By cases, since the clause did not close over the closure of `map_err`.
    match tree_judge::judge(rec, table, register, size) {
        Ok(()) => Ok(()),
        Err(aside) => Err(aside.reason),
    }
}

// The same behind the records held, whose tree is laid in a work memory of zeros by a register of zeros.
fn reason_behind(
    log: &[u8],
    base: &[u8],
    state: State,
    rec: &[u8],
    work: &mut [u8],
    register: &mut [u16],
) -> Result<(), Refusal>
    requires { Stands log.now base.now state × (well_formed rec.now ≡ true) × (work.old ≡ replicate tree_size 0) × (register.old ≡ replicate register_size 0) }
    ensures tells { code_of result ≡ reason_of (judge_of rec.now (tree_of log.now base.now)) }
    ensures lays { work.new ≡ work_bytes (tree_of log.now base.now) }
{
    let laid = state_tree::replay_state(log, base, state, work, register);
    reason_on(rec, work, register, laid)
}

// The same in a work memory that may hold anything before.
pub fn reason(
    log: &[u8],
    base: &[u8],
    state: State,
    rec: &[u8],
    work: &mut [u8],
) -> Result<(), Refusal>
    requires { Stands log.now base.now state × (well_formed rec.now ≡ true) × (length work.old ≡ tree_size) }
    ensures tells { code_of result ≡ reason_of (judge_of rec.now (tree_of log.now base.now)) }
    ensures lays { work.new ≡ work_bytes (tree_of log.now base.now) }
{
    work.fill(0);
    let mut register = [0u16; REGISTER];
    reason_behind(log, base, state, rec, work, &mut register)
}

// ---- the act

// A record is put behind the others of a log.
pub fn put_behind(log: &mut [u8], used: usize, rec: &[u8])
    requires { (length log.old ≡ log_size) × (used < log_places) × (length rec.now ≡ record_size) }
    ensures { log.new ≡ put_at log.old (80 * used) rec.now }
{
    byte_slice::put(log, 80 * used, rec);
}

// A wish in a sound state: its record is put behind the others, or it is refused and the log is left.
pub fn act_on(
    log: &mut [u8],
    base: &[u8],
    state: State,
    unit: u8,
    wish: &[u8],
    work: &mut [u8],
) -> Result<(), Refusal>
    requires { Stands log.old base.now state × (state.head.list ≡ get_or base.now 0 0) × (unit < 8) × (length wish.now ≡ record_size) × (length work.old ≡ tree_size) }
    ensures acted { outcome (code_of result) 0 log.new [] 0 ≡ acted_on unit log.old base.now wish.now }
    ensures worked { work.new ≡ worked_on unit log.old base.now wish.now work.old }
{
    let rec = stamp(wish, unit, state.held);
    check_early(state, unit, wish, &rec)?;
    reason(log, base, state, &rec, work)?;
    put_behind(log, state.used, &rec);
    Ok(())
}

// One act of the own unit: its record is put behind those of the log, or it is refused and the log is left. Checked in this order: 1, 21, 19,
// 26, 7, 24, 28, 11, then the reasons of a replay. The base is only read, and the archive is not asked. The work memory is written once the
// replay is come to, and then holds the table of the records held.
pub fn act(
    log: &mut [u8],
    base: &[u8],
    archive: u32,
    unit: u8,
    wish: &[u8],
    work: &mut [u8],
) -> Result<(), Refusal>
    ensures acted { outcome (code_of result) 0 log.new [] 0 ≡ act_of unit log.old base.now wish.now work.old }
    ensures worked { work.new ≡ act_work unit log.old base.now wish.now work.old }
{
    let lent = (wish.len() == RECORD_BYTES) & (work.len() == TREE_BYTES);
    let state = open(log, base, unit, lent, true)?;
    act_on(log, base, state, unit, wish, work)
}
