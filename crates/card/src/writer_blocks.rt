// What is put into a block.
// A slice, not an array: an Option<&mut [u8; 512]>, as as_mut_array gives, has another layout at 32-bit addresses.
ghost use Rattle.std.specs.Prelude.{◌≡◌, ◌+◌, ◌<◌, ◌≤◌, min, length, take, drop, replicate, slice_index};
ghost use Rattle.std.proofs.Math.Seq.{paste};
ghost use Rattle.card.specs.Packet.{packet_bytes, packet_of};
ghost use Rattle.card.specs.Written.{body, sealed};
ghost use Rattle.card.specs.Writing.{closed};

// Not the library's min: with it a write takes 216 instructions on x86-64, where tests/chip/budgets has 211.
pub fn least(a: u16, b: u16) -> u16
    ensures { result ≡ min a b }
{
    if a < b { a } else { b }
}

// Byte i of a packet on the card.
fn packet_byte(endpoint: u8, bytes: &[u8], i: usize) -> u8
    requires { (i < 3 + length bytes.now) × (length bytes.now ≤ 1024) }
    ensures { result ≡ slice_index (packet_bytes (packet_of endpoint bytes.now)) i }
{
    if i == 0 {
        return (bytes.len() % 256) as u8;
    }
    if i == 1 {
        return (bytes.len() / 256) as u8;
    }
    if i == 2 {
        return endpoint;
    }
    bytes[i - 3]
}

// How many of n bytes of a packet, from its byte `from` on, are its header's three.
fn header_part(from: u16, n: u16) -> u16
    ensures { (result ≤ n) × (result ≤ 3) × (result < n → 3 ≤ from + result) × (3 ≤ result → from ≡ 0) }
{
    if 3 <= from {
        return 0;
    }
    least(3 - from, n)
}

// Copies n bytes of a packet, from its byte `from` on, into the block, one by one.
fn put_few(block: &mut [u8], at: usize, endpoint: u8, bytes: &[u8], from: usize, n: usize)
    requires { (at + n ≤ length block.old) × (from + n ≤ 3 + length bytes.now) × (length bytes.now ≤ 1024) }
    ensures { block.new ≡ paste block.old at
        (drop from (packet_bytes (packet_of endpoint bytes.now))) n }
{
    for i in 0..n {
        block[at + i] = packet_byte(endpoint, bytes, from + i);
    }
}

// The three bytes of its header.
fn put_header(block: &mut [u8], at: usize, endpoint: u8, bytes: &[u8])
    requires { (at + 3 ≤ length block.old) × (length bytes.now ≤ 1024) }
    ensures { block.new ≡ paste block.old at
        (packet_bytes (packet_of endpoint bytes.now)) 3 }
{
    let n = bytes.len() as u16;
    block[at] = (n % 256) as u8;
    block[at + 1] = (n / 256) as u8;
    block[at + 2] = endpoint;
}

// The part of its header that n bytes from its byte `from` on have: mostly all of it.
fn put_part(block: &mut [u8], at: usize, endpoint: u8, bytes: &[u8], from: u16, n: u16)
    requires { (at + n ≤ length block.old) × (from + n ≤ 3 + length bytes.now) × (length bytes.now ≤ 1024)
        × (n ≤ 3)
        × (3 ≤ n → from ≡ 0) }
    ensures { block.new ≡ paste block.old at
        (drop from (packet_bytes (packet_of endpoint bytes.now))) n }
{
    if n < 3 {
        put_few(block, at, endpoint, bytes, from as usize, n as usize);
        return;
    }
    put_header(block, at, endpoint, bytes);
}

// The same of any bytes of it: those of its header, then its data together.
pub fn put_piece(block: &mut [u8], at: u16, endpoint: u8, bytes: &[u8], from: u16, n: u16)
    requires { (at + n ≤ 512) × (length block.old ≡ 512) × (from + n ≤ 3 + length bytes.now)
        × (length bytes.now ≤ 1024) }
    ensures { block.new ≡ paste block.old at
        (drop from (packet_bytes (packet_of endpoint bytes.now))) n }
{
    let few = header_part(from, n);
    put_part(block, at as usize, endpoint, bytes, from, few);
    if n <= few {
        return;
    }
    let a = (from + few - 3) as usize;
    let e = a + (n - few) as usize;
    ring::marks::copy_in(block, (at + few) as u32, &bytes[a..e]);
}

// Fills n bytes of the block with zeros.
pub fn put_zeros(block: &mut [u8], at: usize, n: usize)
    requires { at + n ≤ length block.old }
    ensures { block.new ≡ paste block.old at (replicate n 0) n }
{
    // Byte by byte: with fill a finish takes 64 bytes of stack on RV32, not 48.
    for i in 0..n {
        block[at + i] = 0;
    }
}

// The block's number and the offset of the first packet that begins in it.
fn put_head(block: &mut [u8], number: u32, first: u16)
    requires { 6 ≤ length block.old }
    ensures { block.new ≡ body number first (drop 6 block.old) }
{
    block[0] = (number % 256) as u8;
    block[1] = (number / 256 % 256) as u8;
    block[2] = (number / 65536 % 256) as u8;
    block[3] = (number / 16777216 % 256) as u8;
    block[4] = (first % 256) as u8;
    block[5] = (first / 256) as u8;
}

// The check over bytes 0 to 509.
fn put_check(block: &mut [u8])
    requires { length block.old ≡ 512 }
    ensures { block.new ≡ sealed (take 510 block.old) }
{
    let a = 0;
    let e = 510;
    let crc = crate::crc::data_crc(&block[a..e]);
    block[510] = (crc % 256) as u8;
    block[511] = (crc / 256) as u8;
}

// Closes a block whose packet data is in place.
pub fn close(block: &mut [u8], number: u32, first: u16)
    requires { length block.old ≡ 512 }
    ensures { block.new ≡ closed number first block.old }
{
    put_head(block, number, first);
    put_check(block);
}
