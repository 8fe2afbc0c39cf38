// What stands in a block of a stream.
ghost use Rattle.std.specs.Prelude.{◌≡◌, ◌+◌, ◌*◌, ◌/◌, ◌<◌, ◌≤◌, length, slice_index};
ghost use Rattle.card.specs.Calls.{in_blocks};
ghost use Rattle.card.specs.Streams.{pair_at, placed, checked, good_block, data_byte};

use crate::refusal::Refusal;

// A stream that is not whole blocks is refused.
pub fn in_blocks(stream: &[u8]) -> Result<(), Refusal>
    ensures { result ≡ in_blocks stream.now }
{
    if stream.len() % 512 == 0 {
        Ok(())
    } else {
        Err(Refusal::Card)
    }
}

// A byte of the stream as a number.
pub fn byte_at(stream: &[u8], i: usize) -> usize
    requires { i < length stream.now }
    ensures value { result ≡ slice_index stream.now i }
    ensures upper_bound { result < 256 }
{
    stream[i] as usize
}

// Two bytes of block k, lowest first.
pub fn pair_at(stream: &[u8], k: usize, i: usize) -> usize
    requires { k * 512 + i + 1 < length stream.now }
    ensures value { result ≡ pair_at stream.now k i }
    ensures upper_bound { result < 65536 }
{
    let low = byte_at(stream, k * 512 + i);
    let high = byte_at(stream, k * 512 + (i + 1));
    low + high * 256
}

// Is the number of block k its place modulo 2^32?
fn is_placed(stream: &[u8], k: usize) -> bool
    requires { k * 512 + 4 ≤ length stream.now }
    ensures { result ≡ placed stream.now k }
{
    let low = pair_at(stream, k, 0);
    let high = pair_at(stream, k, 2);
    low + high * 65536 == k % 4294967296
}

// Does its check hold?
fn is_checked(stream: &[u8], k: usize) -> bool
    requires { k * 512 + 512 ≤ length stream.now }
    ensures { result ≡ checked stream.now k }
{
    let a = k * 512;
    let e = a + 510;
    let crc = crate::crc::data_crc(&stream[a..e]);
    pair_at(stream, k, 510) == crc as usize
}

// Whether block k of a stream has its own number and a check that fits its bytes.
pub fn is_good(stream: &[u8], k: usize) -> bool
    ensures { result ≡ good_block stream.now k }
{
    if stream.len() / 512 <= k {
        return false;
    }
    if !is_placed(stream, k) {
        return false;
    }
    is_checked(stream, k)
}

// The byte at a place of the packet data.
pub fn data_byte(stream: &[u8], d: usize) -> u8
    requires { d < length stream.now / 512 * 504 }
    ensures { result ≡ data_byte stream.now d }
{
    stream[d / 504 * 512 + (6 + d % 504)]
}
