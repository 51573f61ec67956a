// The bench examples of document 01 that are not starred, run on the code: what it answers is printed and compared. No unit folds, so one
// empty base stands for all.
#![tactic(auto)]

ghost use Rattle.std.specs.Prelude.{◌≤◌, length};

use refusal::Refusal;
use vector::Vector;

// A wish of unit 0 to make a trace in the root on 3 March 2025, with a label of its own for each k.
fn wish(k: usize) -> [u8; 80] {
    let mut b = [0u8; 80];
    b[1] = 2;
    b[28] = 233;
    b[29] = 7;
    b[30] = 3;
    b[31] = 3;
    b[32] = b'a' + (k % 26) as u8;
    b[33] = b'a' + (k / 26 % 26) as u8;
    b
}

// 1 for an answer that is no refusal.
fn accepted(answer: Result<(), Refusal>) -> u64
    ensures { result ≤ 1 }
{
    u64::from(answer.is_ok())
}

// An act of unit 0, with work memory of its own.
fn act_with(log: &mut [u8], base: &[u8], wish: &[u8]) -> Result<(), Refusal> {
    let mut work = [0u8; 86020];
    act::act(log, base, 7, 0, wish, &mut work)
}

// n wishes are acted on: how many of the acts answer 0.
fn fill(log: &mut [u8], base: &[u8], n: usize) -> u64 {
    let mut done: u64 = 0;
    for k in 0..n {
        done += accepted(act_with(log, base, &wish(k)));
    }
    done
}

// The vector of a log, as it stands in a block that is handed out.
fn held(log: &[u8], base: &[u8]) -> Vector {
    let mut b = [0u8; 512];
    let _ = hand_out::hand_out(log, base, 7, 1, vector::zero_vector(), &mut b);
    vector::vector_at(&b, 12)
}

// How many blocks were handed out with a record, and how many of the takes answered 0.
#[derive(Drop)]
pub struct Passed {
    pub blocks: u64,
    pub taken: u64,
}

// Blocks are passed to another log until nothing is lacking, at most 100.
fn pass(from: &[u8], to: &mut [u8], base: &[u8]) -> Passed {
    let mut taken: u64 = 0;
    for n in 0u64..100 {
        let mut b = [0u8; 512];
        let _ = hand_out::hand_out(from, base, 7, 0, held(to, base), &mut b);
        if b[9] == 0 {
            return Passed { blocks: n, taken };
        }
        taken += accepted(take::take(to, base, 7, 1, &b));
    }
    Passed { blocks: 100, taken }
}

// A line: what was tried, and what came of it.
fn say(out: &impl Print, what: &[u8], n: u64) {
    let _ = out.write_all(what);
    let _ = out.print(n);
    let _ = out.write_all(b"\n");
}

// A line: what was tried, and the number of its refusal, 0 for none.
fn say_code(out: &impl Print, what: &[u8], answer: Result<(), Refusal>) {
    say(out, what, u64::from(refusal::code(answer)));
}

// Whether two logs are the same byte for byte.
fn say_same(out: &impl Print, log: &[u8], other: &[u8]) {
    if log == other {
        let _ = out.write_all(b"both logs are the same\n");
    } else {
        let _ = out.write_all(b"the logs differ\n");
    }
}

// n records are lacking: how many blocks pass them, what the takes answer, and what the receiver holds.
fn lacking(out: &impl Print, n: usize, base: &[u8]) {
    let mut log = [0u8; 40960];
    let mut other = [0u8; 40960];
    say(out, b"acts that answer 0: ", fill(&mut log, base, n));
    let p = pass(&log, &mut other, base);
    let _ = out.print(n as u64);
    say(out, b" lacking, blocks: ", p.blocks);
    say(out, b"takes that answer 0: ", p.taken);
    say_same(out, &log, &other);
}

// A log of 512 records: the blocks of its file, and the records of the last.
fn full(out: &impl Print, base: &[u8]) {
    let mut log = [0u8; 40960];
    let mut file = [0u8; 44032];
    say(out, b"acts that answer 0: ", fill(&mut log, base, 512));
    let blocks = write_file::write_file(&log, base, 7, 0, &mut file).unwrap_or(0);
    say(out, b"512 records, blocks: ", u64::from(blocks));
    say(out, b"records in the last: ", u64::from(file[43529]));
    say_code(
        out,
        b"a 513th record: ",
        act_with(&mut log, base, &wish(513)),
    );
}

// A wish to make a folder with a label.
fn label(out: &impl Print, text: &[u8], base: &[u8])
    requires { length text.now ≤ 48 }
{
    let mut log = [0u8; 40960];
    let mut b = [0u8; 80];
    byte_slice::put(&mut b, 32, text);
    b[1] = 1;
    b[28] = 233;
    b[29] = 7;
    b[30] = 3;
    b[31] = 3;
    let answer = act_with(&mut log, base, &b);
    let _ = out.write_all(b"a label of ");
    let _ = out.print(text.len() as u64);
    say_code(out, b" bytes: ", answer);
}

// A wish dated 31 December 1989.
fn dated(out: &impl Print, base: &[u8]) {
    let mut log = [0u8; 40960];
    let mut w = wish(0);
    w[28] = 197;
    w[30] = 12;
    w[31] = 31;
    say_code(out, b"1989-12-31: ", act_with(&mut log, base, &w));
}

fn main(rt: HostRuntime) {
    let mut base = [0u8; 43032];
    base[0] = 255;
    dated(&rt, &base);
    lacking(&rt, 6, &base);
    lacking(&rt, 7, &base);
    full(&rt, &base);
    label(&rt, b"xxxxxxxxxxxxxxxxxxxxxxxxxxxxxxxx", &base);
    label(&rt, b"xxxxxxxxxxxxxxxxxxxxxxxxxxxxxxxxx", &base);
}
