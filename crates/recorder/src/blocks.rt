// Packets into a ring of four lent blocks.
// A slice, not an array: an Option<&mut [u8; 2048]>, as as_mut_array gives, has another layout at 32-bit addresses.
ghost use Rattle.std.specs.Prelude.{◌≡◌, ◌≤◌, ◌<◌, length};
ghost use Rattle.card.specs.Packet.{packet_of};
ghost use Rattle.card.specs.Writing.{whole_of, writer_of};
ghost use Rattle.recorder.specs.Ring.{ring_of, piece_ring, packet_ring, padding_of, padding, record_ring, end_bytes};
ghost use Rattle.recorder.specs.Ring.{end_record, filled_room, end_room};

use card::writer::{Piece, Writer};

// Writes a piece of a packet into the writer's block.
fn put_piece(w: Writer, room: &mut [u8], endpoint: u8, bytes: &[u8]) -> Piece
    requires { (length room.old ≡ 2048) × (length bytes.now ≤ 1024) × (0 < endpoint) × (endpoint ≤ 15) }
    ensures next_value { result.next ≡ writer_of w (length bytes.now) }
    ensures whole_value { result.done ≡ whole_of w (length bytes.now) }
    ensures room_after { room.new ≡ (piece_ring (packet_of endpoint bytes.now)
        (ring_of w room.old)).room }
{
    let a = (w.number % 4) as usize * 512;
    let e = a + 512;
    // Never refused. With unwrap the archive has a trap, and a refused begin takes 38 instructions on x86-64, not 22.
    match card::writing::write(w, &mut room[a..e], endpoint, bytes) {
        Ok(piece) => piece,
        Err(_) => Piece {
            next: w,
            full: false,
            done: true,
        },
    }
}

// Writes a packet: four blocks hold it, wherever it begins.
pub fn put_packet(w: Writer, room: &mut [u8], endpoint: u8, bytes: &[u8]) -> Writer
    requires { (length room.old ≡ 2048) × (length bytes.now ≤ 1024) × (0 < endpoint) × (endpoint ≤ 15) }
    ensures { ring_of result room.new ≡ packet_ring 4 (packet_of endpoint bytes.now)
        (ring_of w room.old) }
{
    let mut at = w;
    for _turn in 0..4u8 {
        let put = put_piece(at, room, endpoint, bytes);
        if put.done {
            return put.next;
        }
        at = put.next;
    }
    at
}

// How many bytes a padding packet has that fills the rest of the block; it has none where its header does.
fn padding_of(used: u16) -> usize
    ensures { (result ≡ padding_of used) × (result ≤ 501) }
{
    if used < 501 {
        return (501 - used) as usize;
    }
    0
}

// Fills the block by a padding packet of the recorder's own.
pub fn put_padding(w: Writer, room: &mut [u8]) -> Writer
    requires { length room.old ≡ 2048 }
    ensures { ring_of result room.new ≡ packet_ring 4 (padding w.used) (ring_of w room.old) }
{
    let zeros = [0u8; 501];
    let a = 0;
    let e = padding_of(w.used);
    put_packet(w, room, 15, &zeros[a..e])
}

// A packet, and padding behind it where the block has no place for an end record and its filler.
pub fn put_record(w: Writer, room: &mut [u8], endpoint: u8, bytes: &[u8]) -> Writer
    requires { (length room.old ≡ 2048) × (length bytes.now ≤ 1024) × (0 < endpoint) × (endpoint ≤ 15) }
    ensures { ring_of result room.new ≡ record_ring (packet_of endpoint bytes.now)
        (ring_of w room.old) }
{
    let next = put_packet(w, room, endpoint, bytes);
    if 488 < next.used {
        return put_padding(next, room);
    }
    next
}

// The bytes of an end record.
fn end_bytes(finished: u8, survey: u32, overruns: u32) -> [u8; 10]
    ensures { result ≡ end_bytes finished survey overruns }
{
    [
        3,
        finished,
        (survey % 256) as u8,
        (survey / 256 % 256) as u8,
        (survey / 65536 % 256) as u8,
        (survey / 16777216 % 256) as u8,
        (overruns % 256) as u8,
        (overruns / 256 % 256) as u8,
        (overruns / 65536 % 256) as u8,
        (overruns / 16777216 % 256) as u8,
    ]
}

// Fills the rest of the writer's block with zeros and closes it.
fn fill_block(w: Writer, number: u32, room: &mut [u8])
    requires { length room.old ≡ 2048 }
    ensures { room.new ≡ filled_room w number room.old }
{
    let a = (number % 4) as usize * 512;
    let e = a + 512;
    let _ = card::writing::finish(w, &mut room[a..e]);
}

// An end record behind the packets, and filler behind it. The writer stays before it, so that the next packet takes its
// place.
pub fn put_end(w: Writer, room: &mut [u8], finished: u8, survey: u32, overruns: u32)
    requires { length room.old ≡ 2048 }
    ensures { room.new ≡ end_room (end_record finished survey overruns) (ring_of w room.old) }
{
    let bytes = end_bytes(finished, survey, overruns);
    let put = put_piece(w, room, 15, &bytes);
    let next = put.next;
    fill_block(next, w.number, room);
}
