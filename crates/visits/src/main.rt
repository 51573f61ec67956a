// visits: tries the plan on standard input, block by block, and prints what the units come to.
#![tactic(auto)]

ghost use Rattle.std.specs.Prelude.{◌≡◌, IfOk, length, replicate};
ghost use Rattle.base_model.specs.Base.{empty_base};
ghost use Rattle.plan_model.specs.Plan.{round};
ghost use Rattle.plan_feed.specs.Going.{fed, Going};

use input::Broken;
use plan_feed::Fed;
use std::io::Read;

// The blocks of a reader are fed one after another. One more than a plan may have shows that it is longer.
fn read_plan<R: Read>(
    reader: &mut R,
    logs: &mut [u8],
    base: &[u8],
    work: &mut [u8],
) -> Result<Fed, Broken>
    requires { (logs.old ≡ replicate 327680 0) × (base.now ≡ empty_base) × (length work.old ≡ 86020) }
    ensures { IfOk result (λ f. Going (fed f.number f.place f.blocks f.archive (round logs.new f.tally.made f.tally.skipped))) }
{
    let mut block = [0u8; 512];
    let mut f = plan_feed::begin();
    for _ in 0..4097 {
        let n = input::read_into(reader, &mut block)?;
        if n == 0 {
            return Ok(f);
        }
        f = plan_feed::feed(f, logs, base, &block[0..n], work);
    }
    Ok(f)
}

// What is printed, at once. Whether all of it could be written.
fn report(out: &impl Print, f: Fed, logs: &[u8]) -> bool
    requires { Going (fed f.number f.place f.blocks f.archive (round logs.now f.tally.made f.tally.skipped)) }
{
    let mut text = [0u8; 1024];
    let n = plan_feed::finish(f, logs, &mut text);
    out.write_all(&text[0..n]).is_ok()
}

fn main(rt: HostRuntime) {
    let mut logs = [0u8; 327680];
    let mut base = [0u8; 43032];
    let mut work = [0u8; 86020];
    base_empty::write_empty(&mut base);
    let Ok(f) = read_plan(&mut rt.stdin(), &mut logs, &base, &mut work) else {
        let _ = rt.eprint("visits: standard input could not be read\n");
        return;
    };
    if !report(&rt, f, &logs) {
        let _ = rt.eprint("visits: cannot write\n");
    }
}
