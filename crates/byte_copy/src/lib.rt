// Long runs of bytes from one lent buffer into another. `byte_slice::put` of these would be a call of memmove, a name that the archive would
// need from outside.
#![tactic(auto)]

ghost use Rattle.std.specs.Prelude.{◌≡◌, ◌+◌, ◌≤◌, length};
ghost use Rattle.model.specs.Bytes.{part, put_at};

// The 16 bytes from a place on.
fn read_16(s: &[u8], at: usize) -> [u8; 16]
    requires { at + 16 ≤ length s.now }
    ensures { result ≡ part s.now at 16 }
{
    let mut bytes = [0u8; 16];
    for i in 0..16 {
        bytes[i] = s[at + i];
    }
    bytes
}

// All of src is written into dst from a place on, byte by byte.
fn put_run(dst: &mut [u8], at: usize, src: &[u8])
    requires { at + length src.now ≤ length dst.old }
    ensures { dst.new ≡ put_at dst.old at src.now }
{
    for j in 0..src.len() {
        dst[at + j] = src[j];
    }
}

// All of src is written into dst from a place on: 16 bytes are read before they are written, and then the rest.
pub fn put(dst: &mut [u8], at: usize, src: &[u8])
    requires { at + length src.now ≤ length dst.old }
    ensures { dst.new ≡ put_at dst.old at src.now }
{
    let mut j: usize = 0;
    while 16 <= src.len() - j {
        let bytes = read_16(src, j);
        put_run(dst, at + j, &bytes);
        j += 16;
    }
    let n = src.len();
    put_run(dst, at + j, &src[j..n]);
}
