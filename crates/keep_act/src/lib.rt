// Acting with an index: the one change that the record makes is put into the index, which is not made afresh.
#![tactic(auto)]

ghost use Rattle.std.specs.Prelude.{◌≡◌, true, [], ◌<◌, length, get_or, replicate};
ghost use Rattle.model.specs.Lengths.{record_size, tree_size};
ghost use Rattle.model.specs.Record.{self_of, well_formed};
ghost use Rattle.model.specs.Replay.{judge as judge_of, reason_of};
ghost use Rattle.model.specs.Table.{work_bytes};
ghost use Rattle.base_model.specs.Base.{tree_of};
ghost use Rattle.tree_table.specs.Rows.{InRange, tree_in};
ghost use Rattle.tree_maps.specs.Keys.{register_size};
ghost use Rattle.tree_lookup.specs.Roles.{Holds};
ghost use Rattle.act.specs.Acted.{worked_on};
ghost use Rattle.index_model.specs.Acting.{step_in};
ghost use Rattle.index_model.specs.Kept.{index_fits, if_lent, kept, act_kept, act_kept_work};
ghost use Rattle.index_act.specs.Inside.{Inside};
ghost use Rattle.refusal.specs.Refusals.{code_of};
ghost use Rattle.state_check.specs.Stands.{Stands};
ghost use Rattle.keep_act.specs.Acted.{acted_kept};

use act::put_behind;
use act_wish::{check_early, stamp};
use call_guard::open;
use model::{RECORD_BYTES, TREE_BYTES};
use refusal::Refusal;
use state_check::State;
use tree_maps::REGISTER;
use tree_table::Size;

// ---- the reason, and the change of the index

// The reason under which a record would stand aside behind the tree that a table and a register hold; if there is none, its change is put
// into the index, if one is lent.
fn change_on(
    rec: &[u8],
    table: &[u8],
    register: &[u16],
    size: Size,
    index: &mut [u8],
) -> Result<(), Refusal>
    requires { (well_formed rec.now ≡ true) × InRange (self_of rec.now) × Holds table.now register.now size.entries size.asides × Inside table.now size.entries × (index_fits index.old ≡ true) }
    ensures tells { code_of result ≡ reason_of (judge_of rec.now (tree_in table.now size.entries size.asides)) }
    ensures changes { index.new ≡ if_lent index.old (step_in (judge_of rec.now (tree_in table.now size.entries size.asides)) rec.now (tree_in table.now size.entries size.asides) index.old) }
{
    index_act::judge_and_change(rec, table, register, size, index)
}

// The same behind the records held, whose tree is laid in a work memory of zeros by a register of zeros.
fn change_behind(
    log: &[u8],
    base: &[u8],
    state: State,
    rec: &[u8],
    index: &mut [u8],
    work: &mut [u8],
    register: &mut [u16],
) -> Result<(), Refusal>
    requires { Stands log.now base.now state × (well_formed rec.now ≡ true) × InRange (self_of rec.now) × (index_fits index.old ≡ true) × (work.old ≡ replicate tree_size 0) × (register.old ≡ replicate register_size 0) }
    ensures tells { code_of result ≡ reason_of (judge_of rec.now (tree_of log.now base.now)) }
    ensures changes { index.new ≡ if_lent index.old (step_in (judge_of rec.now (tree_of log.now base.now)) rec.now (tree_of log.now base.now) index.old) }
    ensures lays { work.new ≡ work_bytes (tree_of log.now base.now) }
{
    state_tree::small_counts(state.held);
    let laid = state_tree::replay_state(log, base, state, work, register);
    change_on(rec, work, register, laid, index)
}

// The same in a work memory that may hold anything before.
fn change(
    log: &[u8],
    base: &[u8],
    state: State,
    rec: &[u8],
    index: &mut [u8],
    work: &mut [u8],
) -> Result<(), Refusal>
    requires { Stands log.now base.now state × (well_formed rec.now ≡ true) × InRange (self_of rec.now) × (index_fits index.old ≡ true) × (length work.old ≡ tree_size) }
    ensures tells { code_of result ≡ reason_of (judge_of rec.now (tree_of log.now base.now)) }
    ensures changes { index.new ≡ if_lent index.old (step_in (judge_of rec.now (tree_of log.now base.now)) rec.now (tree_of log.now base.now) index.old) }
    ensures lays { work.new ≡ work_bytes (tree_of log.now base.now) }
{
    work.fill(0);
    let mut register = [0u16; REGISTER];
    change_behind(log, base, state, rec, index, work, &mut register)
}

// ---- the act

// A wish in a sound state: its record is put behind the others, its change into the index; or it is refused and log and index are left.
fn act_on(
    log: &mut [u8],
    base: &[u8],
    state: State,
    index: &mut [u8],
    unit: u8,
    wish: &[u8],
    work: &mut [u8],
) -> Result<(), Refusal>
    requires { Stands log.old base.now state × (state.head.list ≡ get_or base.now 0 0) × (index_fits index.old ≡ true) × (unit < 8) × (length wish.now ≡ record_size) × (length work.old ≡ tree_size) }
    ensures acted { kept (code_of result) 0 log.new index.new [] ≡ acted_kept unit log.old base.now index.old wish.now }
    ensures worked { work.new ≡ worked_on unit log.old base.now wish.now work.old }
{
    let rec = stamp(wish, unit, state.held);
    check_early(state, unit, wish, &rec)?;
    change(log, base, state, &rec, index, work)?;
    put_behind(log, state.used, &rec);
    Ok(())
}

// One act of the own unit: its record is put behind those of the log, and its change into the index, if one is lent; or it is refused and
// both are left. An index of another length is refused before all else. The base is only read, and the archive is not asked. The work
// memory is written once the replay is come to, and then holds the table of the records held.
pub fn act(
    log: &mut [u8],
    base: &[u8],
    index: &mut [u8],
    archive: u32,
    unit: u8,
    wish: &[u8],
    work: &mut [u8],
) -> Result<(), Refusal>
    ensures acted { kept (code_of result) 0 log.new index.new [] ≡ act_kept unit log.old base.now index.old wish.now work.old }
    ensures worked { work.new ≡ act_kept_work unit log.old base.now index.old wish.now work.old }
{
    if !keep_lent::index_fits(index) {
        return Err(Refusal::BadBuffer);
    }
    let lent = (wish.len() == RECORD_BYTES) & (work.len() == TREE_BYTES);
    let state = open(log, base, unit, lent, true)?;
    act_on(log, base, state, index, unit, wish, work)
}
