// The calls that take no driver, for programs in other languages (include/usbhs_survey.h), which crate survey_exports
// exports: the best set of channels, the arrivals between visits, packets on the card, a configuration descriptor's
// endpoints. Any numbers are safe. Each call answers one word; where it is refused, nothing is written.
#![tactic(auto)]

mod rooms; // rooms.rt: the arrivals between visits as three numbers
mod six_numbers; // six_numbers.rt: a recorder as six numbers
mod words; // words.rt: an answer as one word
mod writer; // writer.rt: a card's writer as four numbers

ghost use Rattle.descriptor.specs.Rewriting.{rewritten_of, room_rewritten};
ghost use Rattle.survey_c.specs.Descriptor.{written_word};
ghost use Rattle.std.specs.Prelude.{◌≡◌, length};
ghost use Rattle.bus_time.specs.Time.{is_in_use};
ghost use Rattle.visits.specs.Bounds.{bounds_of};
ghost use Rattle.card.specs.Crc.{data_crc};
ghost use Rattle.card.specs.Packet.{packet_of};
ghost use Rattle.card.specs.Writing.{new_writer, write_of, written_of, finish_of, last_of};
ghost use Rattle.card.specs.Calls.{start_of, next_of, room_of};
ghost use Rattle.survey_c.specs.Numbers.{BestSet, bounds_word, least_by, greatest_by};
ghost use Rattle.card.specs.Batches.{batch_of, batch_room_of};
ghost use Rattle.survey_c.specs.Card.{batch_word, batch_place_by, count_by, used_by};
ghost use Rattle.recorder.specs.Recording.{begin_of, begin_room, record_of, record_room, finish_of as finishedBy};
ghost use Rattle.recorder.specs.Recording.{finish_room, stored_of};
ghost use Rattle.survey_c.specs.Words.{end_word};
ghost use Rattle.survey_c.specs.Recorder.{recorder_in, recorder_numbers, recorded_word, recorder_by};
ghost use Rattle.survey_c.specs.Card.{writer_in, numbers_of, wrote_word, writer_by, finished_word, started_word};
ghost use Rattle.survey_c.specs.Card.{start_by, next_word, endpoint_by, place_by};

use bus_time::Time;
use card::reader::Reader;
use channels::Channel;
use rooms::reached;
use six_numbers::{recorder_in, recorder_numbers};
use words::{done, ended, refused};
use writer::{endpoint_of, numbers_of, result_of, writer_in};

// The best set of the channels in the list, with the bus time that is in use: its count is the end's result; beside it
// the total of its maxima, a figure that no fitting set exceeds and how many sets were looked at.
pub fn usbhs_best_set(
    list: &mut [Channel],
    time: &Time,
    budget: u32,
    total: &mut u32,
    figure: &mut u32,
    looked: &mut u32,
) -> u64
    ensures { BestSet list.old (is_in_use time.now) budget total.old
        figure.old
        looked.old result list.new total.new figure.new looked.new }
{
    let in_use = bus_time::in_use(time);
    match channels::best_set(list, in_use, budget) {
        Err(refusal) => refused(refusal.row()),
        Ok(choice) => {
            *total = choice.total;
            *figure = choice.figure;
            *looked = choice.looked;
            ended(choice.set)
        }
    }
}

// The least and the greatest number of arrivals between two visits, each with a first arrival and a distance that reach
// it.
pub fn usbhs_between_visits(
    a: u32,
    b: u32,
    c: u32,
    d: u32,
    least: &mut [u32; 3],
    greatest: &mut [u32; 3],
) -> u64
    ensures value { result ≡ bounds_word (bounds_of a b c d) }
    ensures least_after { least.new ≡ least_by (bounds_of a b c d) least.old }
    ensures greatest_after { greatest.new ≡ greatest_by (bounds_of a b c d) greatest.old }
{
    match visits::between_visits(a, b, c, d) {
        Err(refusal) => refused(refusal.row()),
        Ok(bounds) => {
            *least = reached(bounds.least);
            *greatest = reached(bounds.greatest);
            ended(0)
        }
    }
}

// The data CRC of USB 2.0 over these bytes, the first bit sent being bit 0.
pub fn usbhs_data_crc(bytes: &[u8]) -> u32
    ensures { result ≡ data_crc bytes.now }
{
    card::crc::data_crc(bytes) as u32
}

// A writer at the start of a stream.
pub fn usbhs_card_new(writer: &mut [u32; 4])
    ensures { writer.new ≡ numbers_of new_writer }
{
    let numbers = numbers_of(card::writing::new());
    *writer = numbers;
}

// Writes a piece of a packet into the lent block.
pub fn usbhs_card_write(writer: &mut [u32; 4], block: &mut [u8], endpoint: u32, bytes: &[u8]) -> u64
    ensures value { result ≡ wrote_word (write_of (writer_in writer.old) (packet_of endpoint bytes.now)
        block.old) }
    ensures writer_after { writer.new ≡ writer_by
        (write_of (writer_in writer.old) (packet_of endpoint bytes.now) block.old)
        writer.old }
    ensures block_after { block.new ≡ written_of (writer_in writer.old)
        (packet_of endpoint bytes.now) block.old }
{
    let w = writer_in(writer);
    match card::writing::write(w, block, endpoint_of(endpoint), bytes) {
        Err(why) => refused(why.row()),
        Ok(piece) => {
            let numbers = numbers_of(piece.next);
            *writer = numbers;
            ended(result_of(piece.full, piece.done))
        }
    }
}

// Fills the last block with zeros: 1, it is to be stored; 0, there is none.
pub fn usbhs_card_finish(writer: &[u32; 4], block: &mut [u8]) -> u64
    ensures value { result ≡ finished_word (finish_of (writer_in writer.now) block.old) }
    ensures block_after { block.new ≡ last_of (writer_in writer.now) block.old }
{
    match card::writing::finish(writer_in(writer), block) {
        Err(why) => refused(why.row()),
        Ok(false) => ended(0),
        Ok(true) => ended(1),
    }
}

// A survey begins on a card that is written over: block 0 of the room is to be stored.
pub fn usbhs_recorder_begin(state: &mut [u32; 6], room: &mut [u8], survey: u32) -> u64
    ensures value { result ≡ recorded_word (begin_of survey room.old) }
    ensures state_after { state.new ≡ recorder_by (begin_of survey room.old) state.old }
    ensures room_after { room.new ≡ begin_room survey room.old }
{
    match recorder::recording::begin(survey, room) {
        Err(why) => refused(why.row()),
        Ok(next) => {
            let numbers = recorder_numbers(next);
            *state = numbers;
            ended(next.left)
        }
    }
}

// Records a packet: ends with how many blocks are to be stored, the last of them first.
pub fn usbhs_record(
    state: &mut [u32; 6],
    room: &mut [u8],
    endpoint: u32,
    bytes: &[u8],
    overruns: u32,
) -> u64
    ensures value { result ≡ recorded_word (record_of (recorder_in state.old)
        (packet_of endpoint bytes.now) room.old) }
    ensures state_after { state.new ≡ recorder_by
        (record_of (recorder_in state.old) (packet_of endpoint bytes.now) room.old)
        state.old }
    ensures room_after { room.new
        ≡ record_room (recorder_in state.old) (packet_of endpoint bytes.now) overruns
        room.old }
{
    let r = recorder_in(state);
    match recorder::recording::record(r, room, endpoint_of(endpoint), bytes, overruns) {
        Err(why) => refused(why.row()),
        Ok(next) => {
            let numbers = recorder_numbers(next);
            *state = numbers;
            ended(next.left)
        }
    }
}

// Brings what is not stored yet to the card: ends with how many blocks are to be stored, the last of them first.
pub fn usbhs_recorder_finish(state: &mut [u32; 6], room: &mut [u8], overruns: u32) -> u64
    ensures value { result ≡ recorded_word (finishedBy (recorder_in state.old) room.old) }
    ensures state_after { state.new
        ≡ recorder_by (finishedBy (recorder_in state.old) room.old) state.old }
    ensures room_after { room.new ≡ finish_room (recorder_in state.old) overruns room.old }
{
    match recorder::recording::finish(recorder_in(state), room, overruns) {
        Err(why) => refused(why.row()),
        Ok(next) => {
            let numbers = recorder_numbers(next);
            *state = numbers;
            ended(next.left)
        }
    }
}

// The block that was to be stored first is stored: ends with how many are left.
pub fn usbhs_recorder_stored(state: &mut [u32; 6]) -> u64
    ensures value { result ≡ end_word (stored_of (recorder_in state.old)).left }
    ensures state_after { state.new ≡ recorder_numbers (stored_of (recorder_in state.old)) }
{
    let next = recorder::recording::stored(recorder_in(state));
    let numbers = recorder_numbers(next);
    *state = numbers;
    ended(next.left)
}

// The place at which a reader of this stream starts.
pub fn usbhs_card_start(stream: &[u8], place: &mut usize) -> u64
    ensures value { result ≡ started_word (start_of stream.now) }
    ensures place_after { place.new ≡ start_by (start_of stream.now) place.old }
{
    match card::reading::start(stream) {
        Err(why) => refused(why.row()),
        Ok(reader) => {
            *place = reader.at;
            ended(0)
        }
    }
}

// The next packet at the room's front, with its endpoint, and the place behind it; or the end.
pub fn usbhs_card_next(stream: &[u8], place: &mut usize, endpoint: &mut u32, room: &mut [u8]) -> u64
    ensures value { result ≡ next_word (next_of stream.now place.old (length room.old)) }
    ensures place_after { place.new ≡ place_by (next_of stream.now place.old
        (length room.old)) place.old }
    ensures endpoint_after { endpoint.new
        ≡ endpoint_by (next_of stream.now place.old (length room.old))
        endpoint.old }
    ensures room_after { room.new ≡ room_of stream.now place.old room.old }
{
    let reader = Reader { at: *place };
    match card::reading::next_packet(reader, stream, room) {
        Err(why) => refused(why.row()),
        Ok(None) => ended(0),
        Ok(Some(packet)) => {
            *endpoint = packet.endpoint as u32;
            *place = packet.then.at;
            done(packet.len)
        }
    }
}

// As many packets from the place on as the room holds, one behind the other as they stand on the card: what as many
// calls of usbhs_card_next give.
pub fn usbhs_card_read(
    stream: &[u8],
    place: &mut usize,
    room: &mut [u8],
    count: &mut usize,
    used: &mut usize,
) -> u64
    ensures value { result ≡ batch_word (batch_of stream.now place.old (length room.old)) }
    ensures place_after { place.new ≡ batch_place_by (batch_of stream.now place.old
        (length room.old)) place.old }
    ensures count_after { count.new ≡ count_by (batch_of stream.now place.old
        (length room.old)) count.old }
    ensures used_after { used.new ≡ used_by (batch_of stream.now place.old
        (length room.old)) used.old }
    ensures room_after { room.new ≡ batch_room_of stream.now place.old room.old }
{
    let reader = Reader { at: *place };
    match card::batches::next_packets(reader, stream, room) {
        Err(why) => refused(why.row()),
        Ok(None) => {
            *count = 0;
            *used = 0;
            ended(0)
        }
        Ok(Some(batch)) => {
            *count = batch.count;
            *used = batch.used;
            *place = batch.then.at;
            ended(1)
        }
    }
}

// The endpoints of a configuration descriptor written out as one interface, alternate setting 0.
pub fn usbhs_write_descriptor(bytes: &[u8], room: &mut [u8]) -> u64
    ensures value { result ≡ written_word (rewritten_of bytes.now room.old) }
    ensures room_after { room.new ≡ room_rewritten bytes.now room.old }
{
    match descriptor::rewrite(bytes, room) {
        descriptor::Written::Refused(row) => refused(row),
        descriptor::Written::Bytes(n) => done(n as u16),
    }
}
