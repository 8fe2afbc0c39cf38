#![tactic(auto)]

pub mod le_bytes; // le_bytes.rt: numbers in bytes

ghost use Rattle.std.specs.Prelude.{◌≡◌, ◌%◌};
ghost use Rattle.bits.specs.Bit.{bit_is_set, with_bit};
ghost use Rattle.bits.specs.Mask.{except};
ghost use Rattle.bits.specs.Walk.{lowest, rest};

// Is this bit of a word set? The bit's number counts modulo 32.
pub fn is_set(word: u32, bit: u8) -> bool
    ensures { result ≡ bit_is_set word (bit % 32) }
{
    word >> (bit % 32) & 1 == 1
}

// The same of a byte; the bit's number counts modulo 8.
pub fn byte_has(byte: u8, bit: u8) -> bool
    ensures { result ≡ bit_is_set byte (bit % 8) }
{
    is_set(byte as u32, bit % 8)
}

// Is this endpoint in a mask? Its number counts modulo 16.
pub fn mask_has(mask: u16, endpoint: u8) -> bool
    ensures { result ≡ bit_is_set mask (endpoint % 16) }
{
    is_set(mask as u32, endpoint % 16)
}

// The word with this bit set or cleared.
pub fn with_bit(word: u32, bit: u8, on: bool) -> u32
    ensures { result ≡ with_bit word (bit % 32) on }
{
    if on {
        word | 1 << (bit % 32)
    } else {
        word & !(1 << (bit % 32))
    }
}

// The same of a byte.
pub fn byte_with(byte: u8, bit: u8, on: bool) -> u8
    ensures { result ≡ with_bit byte (bit % 8) on }
{
    with_bit(byte as u32, bit % 8, on) as u8
}

// The mask with this endpoint put in or taken out.
pub fn mask_with(mask: u16, endpoint: u8, on: bool) -> u16
    ensures { result ≡ with_bit mask (endpoint % 16) on }
{
    with_bit(mask as u32, endpoint % 16, on) as u16
}

// The endpoints of a mask that are not among the others.
pub fn mask_except(mask: u16, others: u16) -> u16
    ensures { result ≡ except mask others }
{
    mask & !others
}

// The next endpoint of a walk, the lowest set bit of the mask; 16 for an empty mask.
pub fn next_endpoint(mask: u16) -> u8
    ensures { result ≡ lowest mask }
{
    u16::trailing_zeros(mask) as u8
}

// The mask without that endpoint; an empty mask stays empty.
pub fn rest_of(mask: u16) -> u16
    ensures { result ≡ rest mask }
{
    mask & std::num::wrapping_sub_u16(mask, 1)
}
