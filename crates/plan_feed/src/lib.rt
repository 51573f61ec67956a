// A plan fed block by block: each block is checked wholly and then done.
#![tactic(auto)]

ghost use Rattle.std.specs.Prelude.{◌≡◌, cond, ◌≤◌, eqb, length, replicate};
ghost use Rattle.model.specs.Lengths.{tree_size};
ghost use Rattle.base_model.specs.Base.{empty_base};
ghost use Rattle.line_text.specs.Written.{Wrote};
ghost use Rattle.plan_model.specs.Plan.{round_size, plan_text_size, round, plan_archive};
ghost use Rattle.plan_model.specs.Feed.{begun, feed_of, fed_text};
ghost use Rattle.plan_feed.specs.Going.{fed, Going};

use plan_act::Tally;
use plan_block::piece_fault;
use plan_check::{archive_of, placed};

// The number of the refusal of a block and its place, or zeros, as the definition has them: `feed` and `finish` are asked of any number. How many blocks
// have passed, the archive of the first; records made and acts skipped.
#[derive(Clone, Copy, Debug, PartialEq, Eq)]
pub struct Fed {
    pub number: u8,
    pub place: u16,
    pub blocks: u16,
    pub archive: u32,
    pub tally: Tally,
}

// Nothing is fed yet, and all eight logs are zeros.
pub fn begin() -> Fed
    ensures { fed result.number result.place result.blocks result.archive (round (replicate round_size 0) result.tally.made result.tally.skipped) ≡ begun }
{
    Fed {
        number: 0,
        place: 0,
        blocks: 0,
        archive: 0,
        tally: Tally {
            made: 0,
            skipped: 0,
        },
    }
}

// The archive that a block is judged by: its own if it is the first.
fn archive_for(f: Fed, b: &[u8]) -> u32
    ensures { result ≡ cond (eqb f.blocks 0) (plan_archive b.now) f.archive }
{
    if f.blocks == 0 {
        return archive_of(b);
    }
    f.archive
}

// One block, or a part of one at the end. It is checked wholly and then done; behind a refusal nothing happens. The base is that of a start.
pub fn feed(f: Fed, logs: &mut [u8], base: &[u8], b: &[u8], work: &mut [u8]) -> Fed
    requires { Going (fed f.number f.place f.blocks f.archive (round logs.old f.tally.made f.tally.skipped)) × (base.now ≡ empty_base) × (length work.old ≡ tree_size) }
    ensures { fed result.number result.place result.blocks result.archive (round logs.new result.tally.made result.tally.skipped) ≡ feed_of (fed f.number f.place f.blocks f.archive (round logs.old f.tally.made f.tally.skipped)) b.now }
{
    if f.number != 0 {
        return f;
    }
    let archive = archive_for(f, b);
    let k = f.blocks as usize;
    if let Err(refusal) = piece_fault(archive, k, b) {
        let fault = placed(refusal, k);
        return Fed {
            number: u8::from(fault.refusal),
            place: fault.place,
            blocks: f.blocks,
            archive: f.archive,
            tally: f.tally,
        };
    }
    let tally = plan_round::block(logs, base, archive, b, work, f.tally);
    Fed {
        number: 0,
        place: 0,
        blocks: f.blocks + 1,
        archive,
        tally,
    }
}

// What is printed at the end, into the lent text.
pub fn finish(f: Fed, logs: &[u8], text: &mut [u8]) -> usize
    requires { Going (fed f.number f.place f.blocks f.archive (round logs.now f.tally.made f.tally.skipped)) × (length text.old ≡ plan_text_size) }
    ensures { Wrote text.old text.new 0 result (fed_text (fed f.number f.place f.blocks f.archive (round logs.now f.tally.made f.tally.skipped))) }
{
    if f.number != 0 {
        return line_refusal::refused_line(text, 0, f.number, f.place);
    }
    plan_lines::round_text(text, logs, f.tally.skipped)
}
