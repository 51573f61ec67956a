// The conversions between the two forms of a file, as the static library calls them: the answer in one word.
#![tactic(auto)]

ghost use Rattle.std.specs.Prelude.{◌≡◌};
ghost use Rattle.sab2_model.specs.Calls.{to_sab2_of, to_sab1_of};
ghost use Rattle.sab_convert.specs.Turned.{turned, turned_of};

use sab_words::pack;

// An SAB1 file as SAB2; the count is that of its blocks.
pub fn to_sab2(file: &[u8], out: &mut [u8]) -> u32
    ensures { turned result out.new ≡ turned_of (to_sab2_of file.now out.old) }
{
    match convert::to_sab2(file, out) {
        Ok(blocks) => pack(0, 0, u16::from(blocks)),
        Err(fault) => pack(u8::from(fault.refusal), fault.place, 0),
    }
}

// An SAB2 file without folded records as SAB1; the count is that of its blocks.
pub fn to_sab1(file: &[u8], out: &mut [u8]) -> u32
    ensures { turned result out.new ≡ turned_of (to_sab1_of file.now out.old) }
{
    match convert::to_sab1(file, out) {
        Ok(blocks) => pack(0, 0, u16::from(blocks)),
        Err(fault) => pack(fault.number(), fault.place(), 0),
    }
}
