// Runs the cases of vectors/readout through the listing library. The arguments are pairs of names, a case's input and what must be printed
// of it; the program tells which cases fail, and how many passed.
#![tactic(auto)]

ghost use Rattle.std.specs.Prelude.{◌≤◌, length};

use std::env::FillError;
use std::rt::{Env, Files};
use std::{fs, str};

// Puts the argument i at the start of buf, and answers its length; 0 for one that is missing or does not fit.
fn arg(env: &impl Env, i: usize, buf: &mut [u8]) -> usize
    ensures { result ≤ length buf.new }
{
    match env.arg(i, buf) {
        Ok(n) => n,
        Err(_) => 0,
    }
}

// How many arguments there are, the program's name among them.
fn arg_count(env: &impl Env) -> usize {
    let mut name = [0u8; 64];
    for n in 0..usize::MAX {
        if matches!(env.arg(n, &mut name), Err(FillError::NotPresent)) {
            return n;
        }
    }
    usize::MAX
}

// The file of a name is read; a file that cannot be opened is empty.
fn load(files: &impl Files, path: &[u8], buf: &mut [u8]) -> usize
    ensures { result ≤ length buf.new }
{
    let Ok(name) = str::from_utf8(path) else {
        return 0;
    };
    let Ok(mut file) = fs::open(files, name) else {
        return 0;
    };
    match input::read_into(&mut file, buf) {
        Ok(n) => n,
        Err(broken) => broken.count,
    }
}

// The file that an argument names is read.
fn load_named(rt: &(impl Files + Env), i: usize, buf: &mut [u8]) -> usize
    ensures { result ≤ length buf.new }
{
    let mut name = [0u8; 64];
    let n = arg(rt, i, &mut name);
    load(rt, &name[0..n], buf)
}

// The listing of a file is what was expected.
fn lists(file: &[u8], expected: &[u8]) -> bool {
    let mut log = [0u8; 40960];
    let mut base = [0u8; 43032];
    let mut tree = [0u8; 86020];
    let mut text = [0u8; 172544];
    let listed = listing::listing(file, &mut log, &mut base, &mut tree, &mut text);
    let n = listed.length as usize;
    &text[0..n] == expected
}

// The case whose two files the arguments i and j name.
fn passes(rt: &(impl Files + Env), i: usize, j: usize) -> bool {
    let mut file = [0u8; 95233];
    let mut expected = [0u8; 172545];
    let n = load_named(rt, i, &mut file);
    let m = load_named(rt, j, &mut expected);
    lists(&file[0..n], &expected[0..m])
}

// 1 for a case that passes; 0 for one that fails, and its name is told.
fn run(rt: &(impl Files + Env + Print), i: usize, j: usize) -> usize
    ensures { result ≤ 1 }
{
    if passes(rt, i, j) {
        return 1;
    }
    let mut name = [0u8; 64];
    let n = arg(rt, i, &mut name);
    let _ = rt.write_all(b"failed: ");
    let _ = rt.write_all(&name[0..n]);
    let _ = rt.write_all(b"\n");
    0
}

fn main(rt: HostRuntime) {
    let cases = arg_count(&rt) / 2;
    let mut passed: usize = 0;
    for i in 0..cases {
        passed += run(&rt, 2 * i + 1, 2 * i + 2);
    }
    let _ = rt.print(passed as u64);
    let _ = rt.write_all(b" passed, ");
    let _ = rt.print((cases - passed) as u64);
    let _ = rt.write_all(b" failed\n");
}
