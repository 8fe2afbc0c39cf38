// As many packets at once as a room holds. No block is checked twice but one that names a begin behind a bad one.
ghost use Rattle.std.specs.Prelude.{◌≡◌, ◌-◌, ◌/◌, ◌≤◌, true, length};
ghost use Rattle.std.proofs.Math.Seq.{paste};
ghost use Rattle.card.specs.Reading.{bytes_from};
ghost use Rattle.card.specs.Streams.{good_block, view};
ghost use Rattle.card.specs.Seen.{Seen};
ghost use Rattle.card.specs.Inside.{Walked, Near};
ghost use Rattle.card.specs.Batches.{Takes, some, front, answer_by, batch_of, batch_room_of};

use crate::blocks::{byte_at, in_blocks, pair_at};
use crate::reader::{Batch, Reader};
use crate::reading::{copy_data, copy_run, find_from};
use crate::refusal::Refusal;

// Some packets: how many, how many bytes of the room they take, the place behind them, and whether the next one is too
// long for the rest.
#[derive(Clone, Copy)]
pub struct Taken {
    pub count: usize,
    pub used: usize,
    pub at: usize,
    pub short: bool,
}

// Packets of one block that stand one behind the other: how many, and how many bytes they take.
#[derive(Clone, Copy)]
pub struct Stretch {
    pub count: usize,
    pub bytes: usize,
}

// The packets from d on that lie whole in the block of d, a good one, and in so many bytes: what most packets are. Only
// their headers are looked at.
fn walk(stream: &[u8], d: usize, room: usize) -> Stretch
    requires { good_block stream.now (d / 504) ≡ true }
    ensures { Walked (view stream.now) d room result.count result.bytes }
{
    let k = d / 504;
    let from = 6 + d % 504;
    let most = (510 - from).min(room);
    let mut count = 0;
    let mut bytes = 0;
    // A while: each packet is as long as its header says, so that no range counts them.
    while bytes + 3 <= most {
        let i = from + bytes;
        if byte_at(stream, k * 512 + (i + 2)) == 0 {
            return Stretch { count, bytes };
        }
        let n = 3 + pair_at(stream, k, i);
        if most - bytes < n {
            return Stretch { count, bytes };
        }
        count += 1;
        bytes += n;
    }
    Stretch { count, bytes }
}

// The same, if the block of d has been looked at, and copied to the room's front by one copy.
fn take_near(stream: &[u8], d: usize, first: usize, room: &mut [u8]) -> Stretch
    requires { Seen (view stream.now) d first }
    ensures near { Near (view stream.now) d first (length room.old) result.count result.bytes }
    ensures room_after { room.new ≡ paste room.old 0
        (bytes_from (view stream.now) d result.bytes) result.bytes }
{
    if first != d / 504 + 1 {
        return Stretch { count: 0, bytes: 0 };
    }
    let near = walk(stream, d, room.len());
    copy_run(stream, d / 504 * 512 + (6 + d % 504), room, 0, near.bytes);
    near
}

fn take(stream: &[u8], place: usize, room: &mut [u8]) -> Taken
    ensures takes { Takes result (some stream.now place (length room.old)) }
    ensures room_after { room.new ≡ front (some stream.now place (length room.old)).bytes
        room.old }
{
    let mut count = 0;
    let mut used = 0;
    let mut d = place;
    let mut first = place / 504;
    loop {
        let near = take_near(stream, d, first, &mut room[used..]);
        count += near.count;
        used += near.bytes;
        d += near.bytes;
        let Some(found) = find_from(stream, d, first) else {
            return Taken {
                count,
                used,
                at: d,
                short: false,
            };
        };
        let n = 3 + found.len as usize;
        if room.len() - used < n {
            return Taken {
                count,
                used,
                at: d,
                short: true,
            };
        }
        copy_data(stream, found.at, room, used, n);
        count += 1;
        used += n;
        d = found.at + n;
        first = (d + 503) / 504;
    }
}

fn answer(t: Taken) -> Result<Option<Batch>, Refusal>
    ensures { result ≡ answer_by t.count t.used t.at t.short }
{
    if t.count == 0 {
        if t.short {
            return Err(Refusal::Card);
        }
        return Ok(None);
    }
    Ok(Some(Batch {
        count: t.count,
        used: t.used,
        then: Reader { at: t.at },
    }))
}

// The next packets, as many as the room holds. After a refusal the same reader goes on where it is.
pub fn next_packets(
    reader: Reader,
    stream: &[u8],
    room: &mut [u8],
) -> Result<Option<Batch>, Refusal>
    ensures value { result ≡ batch_of stream.now reader.at (length room.old) }
    ensures room_after { room.new ≡ batch_room_of stream.now reader.at room.old }
{
    in_blocks(stream)?;
    answer(take(stream, reader.at, room))
}
