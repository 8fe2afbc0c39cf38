// The packets of a stream.
ghost use Rattle.std.specs.Prelude.{◌≡◌, ◌+◌, ◌-◌, ◌/◌, ◌%◌, ◌<◌, ◌≤◌, length, take, drop};
ghost use Rattle.std.proofs.Math.Seq.{paste};
ghost use Rattle.card.specs.Reading.{total, begins, block_end, clean_to, clean_up_to, seek_from, intact, packet_at};
ghost use Rattle.card.specs.Reading.{begin_at, step_at, bytes_from, find};
ghost use Rattle.card.specs.Calls.{start_of, given, put, next_of, room_of};
ghost use Rattle.card.specs.Seen.{Seen};
ghost use Rattle.card.specs.Streams.{view};

use crate::blocks::{data_byte, in_blocks, is_good, pair_at};
use crate::reader::{Packet, Reader};
use crate::refusal::Refusal;
use crate::stream::{Found, Step};

// The first of the blocks from `from` up to `end` that is not good; the block behind them if all are.
fn clean_to(stream: &[u8], from: usize, end: usize) -> usize
    ensures { result ≡ clean_to (view stream.now) from (end - from) }
{
    for k in from..end {
        if !is_good(stream, k) {
            return k;
        }
    }
    from.max(end)
}

// Is a packet begin named by block k, a good one?
fn names_begin(stream: &[u8], k: usize) -> bool
    requires { k < length stream.now / 512 }
    ensures { result ≡ begins (view stream.now) k }
{
    if !is_good(stream, k) {
        return false;
    }
    let named = pair_at(stream, k, 4);
    if named < 6 {
        return false;
    }
    named <= 509
}

// The next packet begin that is named by a good block, from block `from` on.
fn seek(stream: &[u8], from: usize) -> usize
    requires { from ≤ length stream.now / 512 }
    ensures { result ≡ seek_from (view stream.now) from }
{
    let end = stream.len() / 512;
    for k in from..end {
        if names_begin(stream, k) {
            return k * 504 + (pair_at(stream, k, 4) - 6);
        }
    }
    end * 504
}

// This step, if the blocks with the places from d up to e are good; else the reader goes on behind the first that is
// not.
// Those of the three bytes at d are.
fn if_intact(stream: &[u8], d: usize, e: usize, s: Step) -> Step
    requires { (d + 3 ≤ e) × (e ≤ total (view stream.now))
        × (block_end (d + 3) ≤ clean_up_to (view stream.now) d (d + 3)) }
    ensures { result ≡ intact (view stream.now) d e s }
{
    let end = (e + 503) / 504;
    let clean = clean_to(stream, (d + 3 + 503) / 504, end);
    if clean < end {
        return Step::Goes(seek(stream, clean + 1));
    }
    s
}

// A packet of len bytes that begins at d; the blocks of its header are good.
fn packet_at(stream: &[u8], d: usize, len: u16) -> Step
    requires { (d + 3 ≤ total (view stream.now)) × (block_end (d + 3) ≤ clean_up_to (view stream.now) d (d + 3)) }
    ensures { result ≡ packet_at (view stream.now) d len }
{
    let all = stream.len() / 512 * 504;
    let n = len as usize;
    if all - d - 3 < n {
        return if_intact(stream, d, all, Step::Ends);
    }
    let endpoint = data_byte(stream, d + 2);
    if_intact(stream, d, d + 3 + n, Step::Gives { endpoint, len })
}

// The filler, or a packet, at the packet begin d; the blocks of its header are good.
fn begin_at(stream: &[u8], d: usize) -> Step
    requires { (d + 3 ≤ total (view stream.now)) × (block_end (d + 3) ≤ clean_up_to (view stream.now) d (d + 3)) }
    ensures { result ≡ begin_at (view stream.now) d }
{
    if data_byte(stream, d + 2) == 0 {
        return Step::Ends;
    }
    let low = data_byte(stream, d) as u16;
    let high = data_byte(stream, d + 1) as u16;
    packet_at(stream, d, low + high * 256)
}

// What is found at the packet begin d. Its blocks before block `first` are good: they need no second look.
fn step(stream: &[u8], d: usize, first: usize) -> Step
    requires { Seen (view stream.now) d first }
    ensures { result ≡ step_at (view stream.now) d }
{
    let all = stream.len() / 512 * 504;
    if all < d {
        return Step::Ends;
    }
    if all - d < 3 {
        return Step::Ends;
    }
    let end = (d + 3 + 503) / 504;
    let clean = clean_to(stream, first, end);
    if clean < end {
        return Step::Goes(seek(stream, clean + 1));
    }
    begin_at(stream, d)
}

// The next packet from d on; the blocks of d before block `first` are good.
pub fn find_from(stream: &[u8], d: usize, first: usize) -> Option<Found>
    requires { Seen (view stream.now) d first }
    ensures { result ≡ find (view stream.now) (total (view stream.now)) d }
{
    let mut at = d;
    let mut from = first;
    loop {
        match step(stream, at, from) {
            Step::Ends => {
                return None;
            }
            Step::Goes(e) => {
                at = e;
                from = e / 504;
            }
            Step::Gives { endpoint, len } => {
                return Some(Found { at, endpoint, len });
            }
        }
    }
}

// Fills the room with bytes that lie together.
fn fill_run(stream: &[u8], from: usize, room: &mut [u8])
    requires { from + length room.old ≤ length stream.now }
    ensures { room.new ≡ take (length room.old) (drop from stream.now) }
{
    // Not copy_from_slice: of a length that is not known it calls memmove, which those who link need not have.
    for i in 0..room.len() {
        room[i] = stream[from + i];
    }
}

// Copies n bytes that lie together. It and copy_data have one form; both are public, so neither goes into the other.
pub fn copy_run(stream: &[u8], from: usize, room: &mut [u8], at: usize, n: usize)
    requires { (from + n ≤ length stream.now) × (at + n ≤ length room.old) }
    ensures { room.new ≡ paste room.old at (drop from stream.now) n }
{
    fill_run(stream, from, &mut room[at..at + n]);
}

// How many of n places from d on lie in the block of d.
fn run_of(d: usize, n: usize) -> usize
    ensures upper_bound { (result ≤ n) × (d % 504 + result ≤ 504) }
    ensures result_nonzero { 0 < n → 0 < result }
{
    (504 - d % 504).min(n)
}

// Fills the room with packet data from place d on, block by block.
fn fill_data(stream: &[u8], d: usize, room: &mut [u8])
    requires { d + length room.old ≤ total (view stream.now) }
    ensures { room.new ≡ bytes_from (view stream.now) d (length room.old) }
{
    // A while: a run ends where its block does, so that no range counts them.
    let mut i = 0;
    while i < room.len() {
        let e = d + i;
        let run = run_of(e, room.len() - i);
        copy_run(stream, e / 504 * 512 + (6 + e % 504), room, i, run);
        i += run;
    }
}

// Copies n bytes of packet data from place d on into the room, block by block.
pub fn copy_data(stream: &[u8], d: usize, room: &mut [u8], at: usize, n: usize)
    requires { (at + n ≤ length room.old) × (d + n ≤ total (view stream.now)) }
    ensures { room.new ≡ paste room.old at (bytes_from (view stream.now) d n) n }
{
    fill_data(stream, d, &mut room[at..at + n]);
}

// Gives a packet that was found.
fn give(stream: &[u8], found: Found, room: &mut [u8]) -> Result<Packet, Refusal>
    requires { found.at + 3 + found.len ≤ total (view stream.now) }
    ensures value { result ≡ given found (length room.old) }
    ensures room_after { room.new ≡ put (view stream.now) found room.old }
{
    let Found { at, endpoint, len } = found;
    let n = len as usize;
    if room.len() < n {
        return Err(Refusal::Card);
    }
    copy_data(stream, at + 3, room, 0, n);
    Ok(Packet {
        endpoint,
        len,
        then: Reader { at: at + 3 + n },
    })
}

// A reader of this stream, at the first packet begin that a good block names.
pub fn start(stream: &[u8]) -> Result<Reader, Refusal>
    ensures { result ≡ start_of stream.now }
{
    // A match and no `?`: the row by which a torn stream is refused stands here.
    match in_blocks(stream) {
        Err(_) => Err(Refusal::Card),
        Ok(()) => Ok(Reader {
            at: seek(stream, 0),
        }),
    }
}

// The next packet, whose bytes come to the front of the room. After a refusal the same reader goes on where it is.
pub fn next_packet(
    reader: Reader,
    stream: &[u8],
    room: &mut [u8],
) -> Result<Option<Packet>, Refusal>
    ensures value { result ≡ next_of stream.now reader.at (length room.old) }
    ensures room_after { room.new ≡ room_of stream.now reader.at room.old }
{
    in_blocks(stream)?;
    let at = reader.at;
    match find_from(stream, at, at / 504) {
        None => Ok(None),
        Some(found) => Ok(Some(give(stream, found, room)?)),
    }
}
