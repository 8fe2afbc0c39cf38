// Packets into lent blocks.
ghost use Rattle.std.specs.Prelude.{◌≡◌, ◌≤◌, length};
ghost use Rattle.card.specs.Packet.{packet_of};
ghost use Rattle.card.specs.Writing.{new_writer, used_of, done_of, piece_of, full_of, whole_of, done_after};
ghost use Rattle.card.specs.Writing.{first_of, writer_of, block_of_piece, write_of, written_of, finish_of};
ghost use Rattle.card.specs.Writing.{last_of};

use crate::refusal::Refusal;
use crate::writer::{Piece, Writer};
use crate::writer_blocks::{close, least, put_piece, put_zeros};

// A writer at the start of a stream.
pub fn new() -> Writer
    ensures { result ≡ new_writer }
{
    Writer {
        number: 0,
        used: 0,
        first: 65535,
        done: 0,
    }
}

fn used_of(w: Writer) -> u16
    ensures { result ≡ used_of w }
{
    least(w.used, 504)
}

fn done_of(w: Writer, n: u16) -> u16
    requires { n ≤ 1024 }
    ensures { result ≡ done_of w n }
{
    least(w.done, 3 + n)
}

// How much of a packet of n bytes goes into this block.
fn piece_of(w: Writer, n: u16) -> u16
    requires { n ≤ 1024 }
    ensures { result ≡ piece_of w n }
{
    let used = used_of(w);
    let done = done_of(w, n);
    least(504 - used, 3 + n - done)
}

// Is the block full with this piece?
fn is_full(w: Writer, n: u16) -> bool
    requires { n ≤ 1024 }
    ensures { result ≡ full_of w n }
{
    let used = used_of(w);
    let piece = piece_of(w, n);
    used + piece == 504
}

// Is the packet whole with this piece?
fn is_whole(w: Writer, n: u16) -> bool
    requires { n ≤ 1024 }
    ensures { result ≡ whole_of w n }
{
    let done = done_of(w, n);
    let piece = piece_of(w, n);
    done + piece == 3 + n
}

fn done_after(w: Writer, n: u16) -> u16
    requires { n ≤ 1024 }
    ensures { result ≡ done_after w n }
{
    if is_whole(w, n) {
        return 0;
    }
    let done = done_of(w, n);
    let piece = piece_of(w, n);
    done + piece
}

// The offset of the first packet that begins in the block, with this piece.
fn first_of(w: Writer, n: u16) -> u16
    requires { n ≤ 1024 }
    ensures { result ≡ first_of w n }
{
    if done_of(w, n) != 0 {
        return w.first;
    }
    if w.first != 65535 {
        return w.first;
    }
    let used = used_of(w);
    if used < 504 {
        return 6 + used;
    }
    w.first
}

// The writer after the piece.
fn writer_of(w: Writer, n: u16) -> Writer
    requires { n ≤ 1024 }
    ensures { result ≡ writer_of w n }
{
    let done = done_after(w, n);
    if is_full(w, n) {
        return Writer {
            number: std::num::wrapping_add_u32(w.number, 1),
            used: 0,
            first: 65535,
            done,
        };
    }
    let used = used_of(w);
    let piece = piece_of(w, n);
    let first = first_of(w, n);
    Writer {
        number: w.number,
        used: used + piece,
        first,
        done,
    }
}

// The piece into the block, which is closed when it is full.
fn put(w: Writer, block: &mut [u8], endpoint: u8, bytes: &[u8])
    requires { (length block.old ≡ 512) × (length bytes.now ≤ 1024) }
    ensures { block.new ≡ block_of_piece w (packet_of endpoint bytes.now)
        block.old }
{
    let n = bytes.len() as u16;
    let used = used_of(w);
    let done = done_of(w, n);
    let piece = piece_of(w, n);
    put_piece(block, 6 + used, endpoint, bytes, done, piece);
    if is_full(w, n) {
        let first = first_of(w, n);
        close(block, w.number, first);
    }
}

// Writes a piece of a packet into the lent block. Where the packet is not whole yet, the same packet is brought again
// with the next block.
pub fn write(w: Writer, block: &mut [u8], endpoint: u8, bytes: &[u8]) -> Result<Piece, Refusal>
    ensures value { result ≡ write_of w (packet_of endpoint bytes.now) block.old }
    ensures block_after { block.new ≡ written_of w (packet_of endpoint bytes.now) block.old }
{
    if block.len() != 512 {
        return Err(Refusal::Card);
    }
    if 1024 < bytes.len() {
        return Err(Refusal::Card);
    }
    if endpoint == 0 {
        return Err(Refusal::Card);
    }
    if 15 < endpoint {
        return Err(Refusal::Card);
    }
    put(w, block, endpoint, bytes);
    let n = bytes.len() as u16;
    let next = writer_of(w, n);
    let full = is_full(w, n);
    let done = is_whole(w, n);
    Ok(Piece { next, full, done })
}

// Fills the last block with zeros: is there one that is to be stored? Else the last one is stored already.
pub fn finish(w: Writer, block: &mut [u8]) -> Result<bool, Refusal>
    ensures value { result ≡ finish_of w block.old }
    ensures block_after { block.new ≡ last_of w block.old }
{
    if block.len() != 512 {
        return Err(Refusal::Card);
    }
    let used = used_of(w) as usize;
    if used == 0 {
        return Ok(false);
    }
    put_zeros(block, 6 + used, 504 - used);
    close(block, w.number, w.first);
    Ok(true)
}
