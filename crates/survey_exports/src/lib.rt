// The archive for C (include/usbhs_survey.h): each call of crate survey_c under its own name, with its contract.
#![tactic(auto)]

ghost use Rattle.descriptor.specs.Rewriting.{rewritten_of, room_rewritten};
ghost use Rattle.survey_c.specs.Descriptor.{written_word};
ghost use Rattle.std.specs.Prelude.{◌≡◌, length};
ghost use Rattle.bus_time.specs.Time.{is_in_use};
ghost use Rattle.visits.specs.Bounds.{bounds_of};
ghost use Rattle.card.specs.Crc.{data_crc};
ghost use Rattle.card.specs.Packet.{packet_of};
ghost use Rattle.card.specs.Writing.{new_writer, write_of, written_of, finish_of, last_of};
ghost use Rattle.card.specs.Calls.{start_of, next_of, room_of};
ghost use Rattle.survey_c.specs.Numbers.{BestSet, bounds_word, least_by, greatest_by};
ghost use Rattle.card.specs.Batches.{batch_of, batch_room_of};
ghost use Rattle.survey_c.specs.Card.{batch_word, batch_place_by, count_by, used_by};
ghost use Rattle.recorder.specs.Recording.{begin_of, begin_room, record_of, record_room, finish_of as finishedBy};
ghost use Rattle.recorder.specs.Recording.{finish_room, stored_of};
ghost use Rattle.survey_c.specs.Words.{end_word};
ghost use Rattle.survey_c.specs.Recorder.{recorder_in, recorder_numbers, recorded_word, recorder_by};
ghost use Rattle.survey_c.specs.Card.{writer_in, numbers_of, wrote_word, writer_by, finished_word, started_word};
ghost use Rattle.survey_c.specs.Card.{start_by, next_word, endpoint_by, place_by};

use bus_time::Time;
use channels::Channel;

// The best set of the channels in the list, with the bus time that is in use: its count is the end's result; beside it
// the total of its maxima, a figure that no fitting set exceeds and how many sets were looked at.
#[unsafe(no_mangle)]
pub extern "C" fn usbhs_best_set(
    list: &mut [Channel],
    time: &Time,
    budget: u32,
    total: &mut u32,
    figure: &mut u32,
    looked: &mut u32,
) -> u64
    ensures { BestSet list.old (is_in_use time.now) budget total.old
        figure.old
        looked.old result list.new total.new figure.new looked.new }
{
    survey_c::usbhs_best_set(list, time, budget, total, figure, looked)
}

// The least and the greatest number of arrivals between two visits, each with a first arrival and a distance that reach
// it.
#[unsafe(no_mangle)]
pub extern "C" fn usbhs_between_visits(
    a: u32,
    b: u32,
    c: u32,
    d: u32,
    least: &mut [u32; 3],
    greatest: &mut [u32; 3],
) -> u64
    ensures value { result ≡ bounds_word (bounds_of a b c d) }
    ensures least_after { least.new ≡ least_by (bounds_of a b c d) least.old }
    ensures greatest_after { greatest.new ≡ greatest_by (bounds_of a b c d) greatest.old }
{
    survey_c::usbhs_between_visits(a, b, c, d, least, greatest)
}

// The data CRC of USB 2.0 over these bytes, the first bit sent being bit 0.
#[unsafe(no_mangle)]
pub extern "C" fn usbhs_data_crc(bytes: &[u8]) -> u32
    ensures { result ≡ data_crc bytes.now }
{
    survey_c::usbhs_data_crc(bytes)
}

// A writer at the start of a stream.
#[unsafe(no_mangle)]
pub extern "C" fn usbhs_card_new(writer: &mut [u32; 4])
    ensures { writer.new ≡ numbers_of new_writer }
{
    survey_c::usbhs_card_new(writer)
}

// Writes a piece of a packet into the lent block.
#[unsafe(no_mangle)]
pub extern "C" fn usbhs_card_write(
    writer: &mut [u32; 4],
    block: &mut [u8],
    endpoint: u32,
    bytes: &[u8],
) -> u64
    ensures value { result ≡ wrote_word (write_of (writer_in writer.old) (packet_of endpoint bytes.now)
        block.old) }
    ensures writer_after { writer.new ≡ writer_by
        (write_of (writer_in writer.old) (packet_of endpoint bytes.now) block.old)
        writer.old }
    ensures block_after { block.new ≡ written_of (writer_in writer.old)
        (packet_of endpoint bytes.now) block.old }
{
    survey_c::usbhs_card_write(writer, block, endpoint, bytes)
}

// Fills the last block with zeros: 1, it is to be stored; 0, there is none.
#[unsafe(no_mangle)]
pub extern "C" fn usbhs_card_finish(writer: &[u32; 4], block: &mut [u8]) -> u64
    ensures value { result ≡ finished_word (finish_of (writer_in writer.now) block.old) }
    ensures block_after { block.new ≡ last_of (writer_in writer.now) block.old }
{
    survey_c::usbhs_card_finish(writer, block)
}

// A survey begins on a card that is written over: block 0 of the room is to be stored.
#[unsafe(no_mangle)]
pub extern "C" fn usbhs_recorder_begin(state: &mut [u32; 6], room: &mut [u8], survey: u32) -> u64
    ensures value { result ≡ recorded_word (begin_of survey room.old) }
    ensures state_after { state.new ≡ recorder_by (begin_of survey room.old) state.old }
    ensures room_after { room.new ≡ begin_room survey room.old }
{
    survey_c::usbhs_recorder_begin(state, room, survey)
}

// Records a packet: ends with how many blocks are to be stored, the last of them first.
#[unsafe(no_mangle)]
pub extern "C" fn usbhs_record(
    state: &mut [u32; 6],
    room: &mut [u8],
    endpoint: u32,
    bytes: &[u8],
    overruns: u32,
) -> u64
    ensures value { result ≡ recorded_word (record_of (recorder_in state.old)
        (packet_of endpoint bytes.now) room.old) }
    ensures state_after { state.new ≡ recorder_by
        (record_of (recorder_in state.old) (packet_of endpoint bytes.now) room.old)
        state.old }
    ensures room_after { room.new
        ≡ record_room (recorder_in state.old) (packet_of endpoint bytes.now) overruns
        room.old }
{
    survey_c::usbhs_record(state, room, endpoint, bytes, overruns)
}

// Brings what is not stored yet to the card: ends with how many blocks are to be stored, the last of them first.
#[unsafe(no_mangle)]
pub extern "C" fn usbhs_recorder_finish(state: &mut [u32; 6], room: &mut [u8], overruns: u32) -> u64
    ensures value { result ≡ recorded_word (finishedBy (recorder_in state.old) room.old) }
    ensures state_after { state.new
        ≡ recorder_by (finishedBy (recorder_in state.old) room.old) state.old }
    ensures room_after { room.new ≡ finish_room (recorder_in state.old) overruns room.old }
{
    survey_c::usbhs_recorder_finish(state, room, overruns)
}

// The block that was to be stored first is stored: ends with how many are left.
#[unsafe(no_mangle)]
pub extern "C" fn usbhs_recorder_stored(state: &mut [u32; 6]) -> u64
    ensures value { result ≡ end_word (stored_of (recorder_in state.old)).left }
    ensures state_after { state.new ≡ recorder_numbers (stored_of (recorder_in state.old)) }
{
    survey_c::usbhs_recorder_stored(state)
}

// The place at which a reader of this stream starts.
#[unsafe(no_mangle)]
pub extern "C" fn usbhs_card_start(stream: &[u8], place: &mut usize) -> u64
    ensures value { result ≡ started_word (start_of stream.now) }
    ensures place_after { place.new ≡ start_by (start_of stream.now) place.old }
{
    survey_c::usbhs_card_start(stream, place)
}

// The next packet at the room's front, with its endpoint, and the place behind it; or the end.
#[unsafe(no_mangle)]
pub extern "C" fn usbhs_card_next(
    stream: &[u8],
    place: &mut usize,
    endpoint: &mut u32,
    room: &mut [u8],
) -> u64
    ensures value { result ≡ next_word (next_of stream.now place.old (length room.old)) }
    ensures place_after { place.new ≡ place_by (next_of stream.now place.old
        (length room.old)) place.old }
    ensures endpoint_after { endpoint.new
        ≡ endpoint_by (next_of stream.now place.old (length room.old))
        endpoint.old }
    ensures room_after { room.new ≡ room_of stream.now place.old room.old }
{
    survey_c::usbhs_card_next(stream, place, endpoint, room)
}

// As many packets from the place on as the room holds, one behind the other as they stand on the card: what as many
// calls of usbhs_card_next give.
#[unsafe(no_mangle)]
pub extern "C" fn usbhs_card_read(
    stream: &[u8],
    place: &mut usize,
    room: &mut [u8],
    count: &mut usize,
    used: &mut usize,
) -> u64
    ensures value { result ≡ batch_word (batch_of stream.now place.old (length room.old)) }
    ensures place_after { place.new ≡ batch_place_by (batch_of stream.now place.old
        (length room.old)) place.old }
    ensures count_after { count.new ≡ count_by (batch_of stream.now place.old
        (length room.old)) count.old }
    ensures used_after { used.new ≡ used_by (batch_of stream.now place.old
        (length room.old)) used.old }
    ensures room_after { room.new ≡ batch_room_of stream.now place.old room.old }
{
    survey_c::usbhs_card_read(stream, place, room, count, used)
}

// The endpoints of a configuration descriptor written out as one interface, alternate setting 0.
#[unsafe(no_mangle)]
pub extern "C" fn usbhs_write_descriptor(bytes: &[u8], room: &mut [u8]) -> u64
    ensures value { result ≡ written_word (rewritten_of bytes.now room.old) }
    ensures room_after { room.new ≡ room_rewritten bytes.now room.old }
{
    survey_c::usbhs_write_descriptor(bytes, room)
}
