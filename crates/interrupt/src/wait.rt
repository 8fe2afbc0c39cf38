ghost use Rattle.std.specs.Prelude.{◌≡◌, true};
ghost use Rattle.regs.specs.Registers.{fits_in};
ghost use Rattle.interrupt.specs.Wait.{over};

use regs::mis_status;

// Looks after the first: `n < SIE_WAIT`.
pub const LOOKS: u16 = 2000;

// A reading of a byte or less.
pub fn byte(v: u32) -> u8
    requires { fits_in v 8 ≡ true }
    ensures { result ≡ v }
{
    v as u8
}

// A length, a frame number.
pub fn short(v: u32) -> u16
    requires { fits_in v 16 ≡ true }
    ensures { result ≡ v }
{
    v as u16
}

// Does the wait end with this look, after which n may follow?
pub fn over(v: u8, n: u16) -> bool
    ensures { result ≡ over v n }
{
    if mis_status::sie_free(v) {
        return true;
    }
    n == 0
}
