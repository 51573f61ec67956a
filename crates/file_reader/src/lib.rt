// The records of a file, walked one at a time: a reader holds the lent file and a position in it, and moves on from record to record. The
// borrow checker covers no function over a struct that holds a reference, so these are few and thin, and proved by hand; `record_at`
// and `lay` do the work on plain slices and numbers, and `walk`, whose parameters are plain, serves every other caller.
#![tactic(auto)]

ghost use Rattle.std.specs.Prelude.{◌≡◌, ◌+◌, ◌*◌, ◌≤◌, length};
ghost use Rattle.model.specs.Bytes.{put_at};
ghost use Rattle.file_reader.specs.Walk.{record_or_zeros, walked_to};

#[derive(Clone, Copy, Drop)]
struct Reader<'a> {
    src: &'a [u8],
    at: usize,
}

// The 80 bytes of a record.
#[derive(Drop)]
struct Record {
    bytes: [u8; 80],
}

// Record i of a file, or zeros where the file has no such place.
fn record_at(file: &[u8], i: usize) -> Record
    ensures { result.bytes ≡ record_or_zeros file.now i }
{
    let mut bytes = [0u8; 80];
    if 516 <= i {
        return Record { bytes };
    }
    let at = 512 * (i / 6) + (28 + 80 * (i % 6));
    if file.len() < at + 80 {
        return Record { bytes };
    }
    bytes.copy_from_slice(&file[at..at + 80]);
    Record { bytes }
}

// A reader that stands before record `at` of a file.
fn begin<'a>(src: &'a [u8], at: usize) -> Reader<'a>
    ensures { (result.src ≡ src.entry) × (result.at ≡ at) }
{
    Reader { src, at }
}

// The record that a reader stands before.
fn current<'a>(r: Reader<'a>) -> Record
    ensures { result.bytes ≡ record_or_zeros r.entry.src.now r.entry.at }
{
    record_at(r.src, r.at)
}

// The same reader before another record.
fn moved<'a>(r: Reader<'a>, at: usize) -> Reader<'a>
    ensures { (result.src ≡ r.entry.src) × (result.at ≡ at) }
{
    Reader { src: r.src, at }
}

// A record becomes record i of a log; the number of the next.
fn lay(log: &mut [u8], i: usize, r: Record) -> usize
    requires { 80 * i + 80 ≤ length log.old }
    ensures { (result ≡ i + 1) × (log.new ≡ put_at log.old (80 * i) r.bytes) }
{
    byte_slice::put(log, 80 * i, &r.bytes);
    i + 1
}

// The record that a reader stands before becomes that of a log, and the reader moves on to the next.
fn advance<'a>(r: Reader<'a>, log: &mut [u8]) -> Reader<'a>
    requires { 80 * r.at + 80 ≤ length log.old }
    ensures { (result.src ≡ r.entry.src) × (result.at ≡ r.entry.at + 1) × (log.new ≡ put_at log.old (80 * r.entry.at) (record_or_zeros r.entry.src.now r.entry.at)) }
{
    let next = lay(log, r.at, current(r));
    moved(r, next)
}

// One reader walks a file from record to record; they become those of a log.
pub fn walk(file: &[u8], log: &mut [u8], total: usize)
    requires { 80 * total ≤ length log.old }
    ensures { log.new ≡ walked_to log.old file.now total }
{
    let mut r = begin(file, 0);
    // The reader has its own position, so no index is counted here.
    while r.at < total {
        r = advance(r, log);
    }
}
