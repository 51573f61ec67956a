// readout: lists the archive file of either form on standard input.
#![tactic(auto)]

ghost use Rattle.std.specs.Prelude.{◌≡◌, length};
ghost use Rattle.sab2_model.specs.Calls.{listing_size, either_output};
ghost use Rattle.line_text.specs.Written.{Wrote};

// What is printed of the bytes that were read, written into the lent text: their listing, or nothing where a read failed. Answers its
// length.
fn output(failed: bool, file: &[u8], text: &mut [u8]) -> usize
    requires { length text.old ≡ listing_size }
    ensures { Wrote text.old text.new 0 result (either_output failed file.now) }
{
    if failed {
        return 0;
    }
    let mut log = [0u8; 40960];
    let mut base = [0u8; 43032];
    let mut tree = [0u8; 86020];
    let listed = listing::listing(file, &mut log, &mut base, &mut tree, text);
    listed.length as usize
}

// It is printed at once. Whether all of it could be written.
fn report(out: &impl Print, failed: bool, file: &[u8]) -> bool {
    let mut text = [0u8; 172544];
    let n = output(failed, file, &mut text);
    out.write_all(&text[0..n]).is_ok()
}

// One byte more than an SAB2 file may have shows that it is longer.
fn main(rt: HostRuntime) {
    let mut file = [0u8; 95233];
    let read = input::read_into(&mut rt.stdin(), &mut file);
    let broken = read.is_err();
    if broken {
        let _ = rt.eprint("readout: standard input could not be read\n");
    }
    let n = match read {
        Ok(n) => n,
        Err(broken) => broken.count,
    };
    if !report(&rt, broken, &file[0..n]) {
        let _ = rt.eprint("readout: cannot write\n");
    }
}
