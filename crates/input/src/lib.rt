// Input read into lent bytes, with a failed read told apart from the end of the input.
#![tactic(auto)]

ghost use Rattle.std.specs.Prelude.{◌≤◌, ◌<◌, IfOk, length, take};
ghost use Rattle.std.specs.Io.KnownBytes.{Consumes, IsAtEnd};
ghost use Rattle.input.specs.Counts.{count_of};

use std::io::Read;

// A read failed behind so many bytes.
#[derive(Clone, Copy, Debug, PartialEq, Eq)]
pub struct Broken {
    pub count: usize,
}

// Reads until buf is full, the input ends or a read fails: how many bytes were read. They stand at the start of buf.
pub fn read_into<R: Read>(reader: &mut R, buf: &mut [u8]) -> Result<usize, Broken>
    ensures bound { count_of result ≤ length buf.new }
    ensures bytes { Consumes (R.remaining reader.old) (R.remaining reader.new) (take (count_of result) buf.new) }
    ensures end { IfOk result (λ n. n < length buf.new → IsAtEnd (R.remaining reader.new)) }
{
    let mut n: usize = 0;
    // A read gives as many bytes as it will, so no index counts the turns.
    while n < buf.len() {
        match reader.read(&mut buf[n..]) {
            Ok(0) => return Ok(n),
            Ok(more) => n += more,
            Err(_) => return Err(Broken { count: n }),
        }
    }
    Ok(n)
}
