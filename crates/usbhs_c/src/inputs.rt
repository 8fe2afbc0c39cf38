ghost use Rattle.std.specs.Prelude.{◌≡◌};
ghost use Rattle.usbhs_c.specs.Calls.{dir_of, flag_of};

use regs::Dir;

// 0 is OUT, any other number IN.
pub fn dir_of(n: u32) -> Dir
    ensures { result ≡ dir_of n }
{
    if n == 0 {
        return Dir::Out;
    }
    Dir::In
}

// 0 is no, any other number yes.
pub fn flag_of(n: u32) -> bool
    ensures { result ≡ flag_of n }
{
    n != 0
}
