ghost use Rattle.std.specs.Prelude.{◌≡◌};
ghost use Rattle.regs.specs.Enables.{place, is_on, with_on, in_enabled, out_enabled};

use crate::Dir;

// The bit of an endpoint's direction.
pub fn place(dir: Dir, endpoint: u8) -> u8
    ensures { result ≡ place dir endpoint }
{
    match dir {
        Dir::In => endpoint % 16,
        Dir::Out => 16 + endpoint % 16,
    }
}

// Is it on: enabled in ep_config, isochronous in ep_type?
pub fn is_on(word: u32, dir: Dir, endpoint: u8) -> bool
    ensures { result ≡ is_on word dir endpoint }
{
    bits::is_set(word, place(dir, endpoint))
}

// The word with it on or off.
pub fn with_on(word: u32, dir: Dir, endpoint: u8, on: bool) -> u32
    ensures { result ≡ with_on word dir endpoint on }
{
    bits::with_bit(word, place(dir, endpoint), on)
}

// The endpoints of `mask` (bit n: endpoint n) whose IN direction is enabled.
pub fn in_enabled(config: u32, mask: u16) -> u16
    ensures { result ≡ in_enabled config mask }
{
    mask & (config & 0xFFFF) as u16
}

// The endpoints of `mask` (bit n: endpoint n) whose OUT direction is enabled.
pub fn out_enabled(config: u32, mask: u16) -> u16
    ensures { result ≡ out_enabled config mask }
{
    mask & (config >> 16) as u16
}
