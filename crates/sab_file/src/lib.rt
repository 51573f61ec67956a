// Writing a file in each form and reading one of either, as the static library calls them: the answer in one word, what a file says of itself in 24 bytes.
#![tactic(auto)]

ghost use Rattle.std.specs.Prelude.{◌≡◌};
ghost use Rattle.call_model.specs.Outcome.{write_of};
ghost use Rattle.sab2_model.specs.Calls.{write_sab2_of};
ghost use Rattle.sab_words.specs.Called.{called, told};
ghost use Rattle.sab_file.specs.Loaded.{loaded, loaded_of};

use refusal::Refusal;
use sab_words::{answer_word, blocks_word, narrow, pack, put_head};

// Writes the whole log as a file; the count is that of its blocks.
pub fn write_file(log: &[u8], base: &[u8], archive: u32, unit: u32, file: &mut [u8]) -> u32
    ensures { called result log.now file.new ≡ told (write_of archive unit log.now base.now file.old) }
{
    blocks_word(write_file::write_file(log, base, archive, narrow(unit), file))
}

// Writes list, base and log as an SAB2 file; the count is that of its blocks.
pub fn write_sab2(log: &[u8], base: &[u8], archive: u32, unit: u32, file: &mut [u8]) -> u32
    ensures { called result log.now file.new ≡ told (write_sab2_of archive unit log.now base.now file.old) }
{
    blocks_word(write_sab2::write_sab2(log, base, archive, narrow(unit), file))
}

// Reads a file of either form into a lent log and base; the count is that of the records of the log.
pub fn read_file(log: &mut [u8], base: &mut [u8], file: &[u8], head: &mut [u8]) -> u32
    ensures { loaded result log.new base.new head.new ≡ loaded_of log.old base.old file.now head.old }
{
    if head.len() != 24 {
        return answer_word(Err(Refusal::BadBuffer));
    }
    match read_either::read_either(log, base, file) {
        Ok(b) => {
            put_head(head, b.archive, b.unit, b.records, b.vector);
            pack(0, 0, b.records)
        }
        Err(fault) => pack(fault.number(), fault.place(), 0),
    }
}
