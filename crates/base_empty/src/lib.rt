// The base of a unit that has folded nothing: all eight units are listed, every other byte is zero.
#![tactic(auto)]

ghost use Rattle.std.specs.Prelude.{◌≡◌, length};
ghost use Rattle.model.specs.Lengths.{base_size};
ghost use Rattle.base_model.specs.Base.{empty_base};

// The lent base becomes empty, whatever stood in it.
pub fn write_empty(base: &mut [u8])
    requires { length base.old ≡ base_size }
    ensures { base.new ≡ empty_base }
{
    base.fill(0);
    base[0] = 255;
}
