// Request Three: the endpoints of a configuration descriptor (USB 2.0, 9.6), read and written.
#![tactic(auto)]

ghost use Rattle.std.specs.Prelude.{◌≡◌, true, ltb};
ghost use Rattle.descriptor.specs.Row.{is_configuration};
ghost use Rattle.descriptor.specs.Endpoints.{of_list};
ghost use Rattle.descriptor.specs.Lists.{Tidy};
ghost use Rattle.descriptor.specs.Reading.{list_of, refused_by, reading_of};
ghost use Rattle.descriptor.specs.Writing.{total_for, count_of, written_of, room_after};
ghost use Rattle.descriptor.specs.Rewriting.{rewritten_of, room_rewritten};

mod row; // row.rt: descriptors one after the other
pub mod list; // list.rt: a list of endpoints
mod gather; // gather.rt: the endpoints of a row in a list
mod put; // put.rt: descriptors in lent room
pub mod preview; // preview.rt: request Four: a configuration descriptor's endpoints tried on a copy of the allocator

// An endpoint as its descriptor has it: bEndpointAddress, bits 0-1 of bmAttributes, bits 0-10 of wMaxPacketSize,
// bInterval.
#[derive(Clone, Copy)]
pub struct Endpoint {
    pub address: u8,
    pub kind: u8,
    pub maximum: u16,
    pub interval: u8,
}

// A list of endpoints: the first `count` entries. 16 numbers in two directions are 32 addresses.
#[derive(Clone, Copy)]
pub struct Endpoints {
    pub entries: [Endpoint; 32],
    pub count: usize,
}

#[derive(Clone, Copy)]
pub enum Answer {
    Refused(u8),
    Listed,
}

// The list is empty where it is refused.
#[derive(Clone, Copy)]
pub struct Reading {
    pub answer: Answer,
    pub list: Endpoints,
}

#[derive(Clone, Copy)]
pub enum Written {
    Refused(u8),
    Bytes(usize),
}

fn refused(row: u8) -> Reading
    ensures { result ≡ refused_by row }
{
    Reading {
        answer: Answer::Refused(row),
        list: list::empty(),
    }
}

// The endpoints of alternate setting 0, then the others, each address once.
fn gathered(bytes: &[u8]) -> Endpoints
    requires { is_configuration bytes.now ≡ true }
    ensures value { result ≡ of_list (list_of bytes.now) }
    ensures tidy { Tidy result }
{
    gather::gather(bytes, false, gather::gather(bytes, true, list::empty()))
}

// Reads a configuration descriptor. 17: the bytes are none; 18: one address has two transfer types.
pub fn read(bytes: &[u8]) -> Reading
    ensures { result ≡ reading_of bytes.now }
{
    if !row::is_configuration(bytes) {
        return refused(17);
    }
    let list = gathered(bytes);
    if !gather::agree(bytes, true, list) {
        return refused(18);
    }
    if !gather::agree(bytes, false, list) {
        return refused(18);
    }
    Reading {
        answer: Answer::Listed,
        list,
    }
}

// Writes the list as a configuration descriptor of one interface, alternate setting 0. 17, and the room as it was: the
// room is too short.
pub fn write(list: Endpoints, room: &mut [u8]) -> Written
    ensures value { result ≡ written_of list room.old }
    ensures room_after { room.new ≡ room_after list room.old }
{
    let n = list::count(list);
    let total = 18 + n * 7;
    if room.len() < total {
        return Written::Refused(17);
    }
    put::configuration(room, n);
    put::interface(room, n);
    put::endpoints(room, list, n);
    Written::Bytes(total)
}

// Is a room of this length too short for the list?
fn is_short(list: Endpoints, length: usize) -> bool
    ensures { result ≡ ltb length (total_for (count_of list)) }
{
    let n = list::count(list);
    length < 18 + n * 7
}

// Reads a configuration descriptor and writes its list as `write` does. 17 first, and the room as it was: the bytes are
// none, or the room is too short for the list; then 18: one address has two transfer types.
pub fn rewrite(bytes: &[u8], room: &mut [u8]) -> Written
    ensures value { result ≡ rewritten_of bytes.now room.old }
    ensures room_after { room.new ≡ room_rewritten bytes.now room.old }
{
    if !row::is_configuration(bytes) {
        return Written::Refused(17);
    }
    if is_short(gathered(bytes), room.len()) {
        return Written::Refused(17);
    }
    let reading = read(bytes);
    let answer = reading.answer;
    match answer {
        Answer::Refused(row) => Written::Refused(row),
        Answer::Listed => {
            let list = reading.list;
            write(list, room)
        }
    }
}
