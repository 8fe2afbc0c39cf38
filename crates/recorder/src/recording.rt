// The recorder's calls, each of which answers with the recorder after it. After each, the blocks that are left are to
// be stored, the last first, with a call of `stored` behind each store.
ghost use Rattle.std.specs.Prelude.{◌≡◌};
ghost use Rattle.card.specs.Packet.{packet_of};
ghost use Rattle.recorder.specs.Recording.{writer_of, left_of, after, begin_bytes, begin_of, begin_room, record_of};
ghost use Rattle.recorder.specs.Recording.{record_room, finish_of, finish_room, stored_of};

use crate::blocks::{put_end, put_packet, put_padding, put_record};
use crate::recorder::Recorder;
use card::refusal::Refusal;
use card::writer::Writer;

fn writer_of(r: Recorder) -> Writer
    ensures { result ≡ writer_of r }
{
    Writer {
        number: r.number,
        used: r.used,
        first: r.first,
        done: 0,
    }
}

// How many blocks are to be stored when block `number` has the end: none while the first of them is not full.
fn left_of(number: u32, from: u32) -> u32
    ensures { result ≡ left_of number from }
{
    if number == from {
        return 0;
    }
    if number < from {
        return 1;
    }
    if number - from < 3 {
        return number - from + 1;
    }
    4
}

fn after(r: Recorder, w: Writer, left: u32) -> Recorder
    ensures { result ≡ after r w left }
{
    Recorder {
        number: w.number,
        used: w.used,
        first: w.first,
        from: r.from,
        left,
        survey: r.survey,
    }
}

// The bytes of a begin record.
fn begin_bytes(survey: u32) -> [u8; 6]
    ensures { result ≡ begin_bytes survey }
{
    [
        1,
        0,
        (survey % 256) as u8,
        (survey / 256 % 256) as u8,
        (survey / 65536 % 256) as u8,
        (survey / 16777216 % 256) as u8,
    ]
}

// A survey begins: its begin record and an end record, in one block.
pub fn begin(survey: u32, room: &mut [u8]) -> Result<Recorder, Refusal>
    ensures value { result ≡ begin_of survey room.old }
    ensures room_after { room.new ≡ begin_room survey room.old }
{
    if room.len() != 2048 {
        return Err(Refusal::Card);
    }
    let bytes = begin_bytes(survey);
    let w = put_packet(card::writing::new(), room, 15, &bytes);
    put_end(w, room, 0, survey, 0);
    Ok(Recorder {
        number: w.number,
        used: w.used,
        first: w.first,
        from: 0,
        left: 1,
        survey,
    })
}

// Records a packet. Where a block is full with it, an end record goes behind it, and the blocks are to be stored.
pub fn record(
    r: Recorder,
    room: &mut [u8],
    endpoint: u8,
    bytes: &[u8],
    overruns: u32,
) -> Result<Recorder, Refusal>
    ensures value { result ≡ record_of r (packet_of endpoint bytes.now) room.old }
    ensures room_after { room.new ≡ record_room r (packet_of endpoint bytes.now) overruns
        room.old }
{
    if room.len() != 2048 {
        return Err(Refusal::Card);
    }
    if r.left != 0 {
        return Err(Refusal::Card);
    }
    if 1024 < bytes.len() {
        return Err(Refusal::Card);
    }
    if endpoint == 0 {
        return Err(Refusal::Card);
    }
    if 15 < endpoint {
        return Err(Refusal::Card);
    }
    let w = put_record(writer_of(r), room, endpoint, bytes);
    if w.number == r.from {
        return Ok(after(r, w, 0));
    }
    put_end(w, room, 0, r.survey, overruns);
    let left = left_of(w.number, r.from);
    Ok(after(r, w, left))
}

// Stores what is not stored yet: padding fills the block, and an end record goes behind it.
pub fn finish(r: Recorder, room: &mut [u8], overruns: u32) -> Result<Recorder, Refusal>
    ensures value { result ≡ finish_of r room.old }
    ensures room_after { room.new ≡ finish_room r overruns room.old }
{
    if room.len() != 2048 {
        return Err(Refusal::Card);
    }
    if r.left != 0 {
        return Err(Refusal::Card);
    }
    let w = put_padding(writer_of(r), room);
    put_end(w, room, 1, r.survey, overruns);
    let left = left_of(w.number, r.from);
    Ok(after(r, w, left))
}

// The last of the blocks that are left is stored.
pub fn stored(r: Recorder) -> Recorder
    ensures { result ≡ stored_of r }
{
    if r.left == 0 {
        return r;
    }
    if r.left == 1 {
        return Recorder {
            number: r.number,
            used: r.used,
            first: r.first,
            from: r.number,
            left: 0,
            survey: r.survey,
        };
    }
    Recorder {
        number: r.number,
        used: r.used,
        first: r.first,
        from: r.from,
        left: r.left - 1,
        survey: r.survey,
    }
}
