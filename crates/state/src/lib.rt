// The driver's one state, in lent bytes. Only this crate sees bytes: others load and store records by value, and their
// contracts speak of `view` and `saved`. Any bytes are a state; all 0 is before the first start-up.
#![tactic(auto)]

use bits::le_bytes::{get16, put16};
use codec::{
    read_allocator, read_control, read_ep, read_globals, read_request, read_saved, write_allocator,
    write_control, write_ep, write_globals, write_request, write_saved,
};
use regs::Dir;

mod codec;
mod kept;
mod stamps;
mod start_up;
mod wakes;

ghost use Rattle.std.specs.Prelude.{◌≡◌, ◌<◌};
ghost use Rattle.state.specs.Driver.{key, len_key, ep_on, with_on, len_on, with_len_on, paced_on, with_paced_on};
ghost use Rattle.state.specs.Driver.{request_on, with_request_on, with_globals, with_allocator, with_control};
ghost use Rattle.state.specs.Ep.{new_ep, reset_of, count_of};
ghost use Rattle.state.specs.State.{view, saved};

pub use bits::le_bytes::{STATE_LEN, State};
pub use kept::{set_ep_config, set_ep_type, set_int_en};
pub use stamps::{clear_all_stamps, clear_stamps, load_stamp, store_stamp};
pub use start_up::{fresh, nothing};
pub use wakes::{clear_wakes, wake, wake_code, woken_at, woken_count};

// Where each part starts. In a state that lies on a word boundary each 16-bit and 32-bit number lies on its own (its
// place is a multiple of its width), and none of the bytes is unused.
const EPS: usize = 40;

const LENS: usize = 1966;

const STAMPS: usize = 1454;

const GLOBALS: usize = 1320;

const ALLOCATOR: usize = 22;

const PACED: usize = 1422;

const REQUESTS: usize = 1064;

const CONTROL: usize = 2990;

const WAKES: usize = 1357;

const CODES: usize = 1358;

const SAVED: usize = 0;

// Per endpoint and direction, as in the Rust without the waker and the shortest length: flags are 0 or 1, two of them
// in 16 bits so that a record is 32 bytes; `lens` stands apart.
#[derive(Clone, Copy)]
pub struct EpState {
    pub ready: u8,
    pub len: u16,
    pub armed: u8,
    pub iso: u8,
    pub kind: u8,
    pub base: u32,
    pub stride: u16,
    pub slots: u8,
    pub head: u8,
    pub tail: u8,
    pub loaded: u8,
    pub overruns: u32,
    pub last_frame: u16,
    pub max_len: u16,
    pub armed_slot: u32,
    pub tog: u16,
    pub open: u16,
}

impl EpState {
    // Never a frame number: bits 11 and 12 of one are 0.
    pub const NO_FRAME: u16 = 0x1800;

    pub const NEW: EpState = EpState {
        ready: 0,
        len: 0,
        armed: 0,
        iso: 0,
        kind: 0,
        base: 0,
        stride: 0,
        slots: 1,
        head: 0,
        tail: 0,
        loaded: 0,
        overruns: 0,
        last_frame: 0x1800,
        max_len: 0,
        armed_slot: 0,
        tog: 0,
        open: 0,
    };

    // An endpoint's record as at power-on.
    pub fn new() -> EpState
        ensures { result ≡ new_ep }
    {
        EpState::NEW
    }

    // Nothing waits and nothing is open; overruns, the armed slot and the geometry stay.
    pub fn reset(mut self) -> EpState
        ensures { result ≡ reset_of self }
    {
        self.last_frame = EpState::NO_FRAME;
        self.ready = 0;
        self.armed = 0;
        self.head = 0;
        self.tail = 0;
        self.loaded = 0;
        self.tog = 0;
        self.open = 0;
        self
    }

    // How many packets wait in the ring.
    pub fn count(self) -> u8
        ensures { result ≡ count_of self }
    {
        std::num::wrapping_sub_u8(self.head, self.tail)
    }
}

// The one record that is lent is taken apart, and reset by value.
pub fn reset(s: &mut EpState)
    ensures { s.new ≡ reset_of s.old }
{
    let t = *s;
    *s = t.reset();
}

// A caller that lends a local.
pub fn by_loan(s: EpState) -> EpState
    ensures { result ≡ reset_of s }
{
    let mut t = s;
    reset(&mut t);
    t
}

// The buffers and the endpoint numbers: buffer size and count, the next free buffer; a bit for each number, taken in a
// direction, taken by a sort (isochronous or other) in either, and allocated in a direction.
#[derive(Clone, Copy)]
pub struct Allocator {
    pub size: u16,
    pub count: u16,
    pub next: u16,
    pub taken_out: u16,
    pub taken_in: u16,
    pub iso_nums: u16,
    pub other_nums: u16,
    pub allocated_out: u16,
    pub allocated_in: u16,
}

// What the Rust keeps in statics beside the endpoints, the three registers that are kept and never read, and the
// microframe index of the frame reading with which the interrupt under way began.
#[derive(Clone, Copy)]
pub struct Globals {
    pub stage: u8,
    pub callback: u8,
    pub power: u8,
    pub setup_ready: u8,
    pub setup_low: u32,
    pub setup_high: u32,
    pub int_en: u8,
    pub ep_config: u32,
    pub ep_type: u32,
    pub iso_out_eps: u16,
    pub iso_in_every: u16,
    pub iso_in_paced: u16,
    pub sof_frame: u16,
    pub ep0_buf: u32,
    pub ep0_max: u16,
    pub entered: u16,
}

// A read or a write that was begun on an endpoint (1, else 0), with its begin's length.
#[derive(Clone, Copy)]
pub struct Request {
    pub begun: u32,
    pub length: u32,
}

// The control pipe's one request: its sort (0 none, 1 setup, 2 data_out, 3 data_in, 4 accept), its begin's length,
// whether it is the last data_in, which wait of it comes next, and the address of accept_set_address.
#[derive(Clone, Copy)]
pub struct Control {
    pub sort: u8,
    pub length: u32,
    pub last: u8,
    pub wait: u8,
    pub sets_address: u8,
    pub address: u8,
}

// The suspended operation: its point as a number (0: none) and what the rest of it needs, unused fields 0.
#[derive(Clone, Copy)]
pub struct Saved {
    pub tag: u8,
    pub sub: u8,
    pub site: u8,
    pub flag: u8,
    pub busy: u8,
    pub late: u8,
    pub len_ok: u8,
    pub st: u8,
    pub now: u8,
    pub ep: u8,
    pub len: u16,
    pub frame: u16,
    pub eps: u16,
    pub n: u16,
    pub value: u32,
}

// Lends an array as a slice, by which its borrower learns how long the list is.
fn sized(_s: &[u8]) {}

// An endpoint's place among the records: OUT 0 to 15, then IN.
fn key_of(dir: Dir, e: u8) -> usize
    ensures { (result ≡ key dir e) × (result < 32) }
{
    match dir {
        Dir::Out => (e % 16) as usize,
        Dir::In => 16 + (e % 16) as usize,
    }
}

// The place of slot i's length.
fn len_key(dir: Dir, e: u8, i: u8) -> usize
    ensures { (result ≡ len_key dir e i) × (result < 512) }
{
    key_of(dir, e) * 16 + (i % 16) as usize
}

// The record of endpoint e, taken modulo 16, in a direction.
pub fn load_ep(s: &State, dir: Dir, e: u8) -> EpState
    ensures { result ≡ ep_on (view s.now) dir e }
{
    let k = key_of(dir, e);
    read_ep(s, EPS + k * 32)
}

// Stores the record of one direction of an endpoint.
pub fn store_ep(s: &mut State, dir: Dir, e: u8, r: EpState)
    ensures s_after { view s.new ≡ with_on (view s.old) dir e r }
    ensures s_unchanged { saved s.new ≡ saved s.old }
{
    sized(s);
    let k = key_of(dir, e);
    write_ep(s, EPS + k * 32, r);
}

// The length of slot i, taken modulo 16.
pub fn load_len(s: &State, dir: Dir, e: u8, i: u8) -> u16
    ensures { result ≡ len_on (view s.now) dir e i }
{
    let k = len_key(dir, e, i);
    get16(s, LENS + k * 2, 0)
}

// Stores the recorded length of slot i.
pub fn store_len(s: &mut State, dir: Dir, e: u8, i: u8, v: u16)
    ensures s_after { view s.new ≡ with_len_on (view s.old) dir e i v }
    ensures s_unchanged { saved s.new ≡ saved s.old }
{
    sized(s);
    let k = len_key(dir, e, i);
    put16(s, LENS + k * 2, 0, v);
}

// A paced endpoint's last microframe.
pub fn load_paced(s: &State, e: u8) -> u16
    ensures { result ≡ paced_on (view s.now) e }
{
    get16(s, PACED + (e % 16) as usize * 2, 0)
}

// Stores the last frame of a paced IN.
pub fn store_paced(s: &mut State, e: u8, v: u16)
    ensures s_after { view s.new ≡ with_paced_on (view s.old) e v }
    ensures s_unchanged { saved s.new ≡ saved s.old }
{
    sized(s);
    put16(s, PACED + (e % 16) as usize * 2, 0, v);
}

// The read begun on OUT e, the write begun on IN e.
pub fn load_request(s: &State, dir: Dir, e: u8) -> Request
    ensures { result ≡ request_on (view s.now) dir e }
{
    let k = key_of(dir, e);
    read_request(s, REQUESTS + k * 8)
}

// Stores the request of one direction of an endpoint.
pub fn store_request(s: &mut State, dir: Dir, e: u8, r: Request)
    ensures s_after { view s.new ≡ with_request_on (view s.old) dir e r }
    ensures s_unchanged { saved s.new ≡ saved s.old }
{
    sized(s);
    let k = key_of(dir, e);
    write_request(s, REQUESTS + k * 8, r);
}

// Loads the globals.
pub fn load_globals(s: &State) -> Globals
    ensures { result ≡ (view s.now).globals }
{
    read_globals(s, GLOBALS)
}

// Stores the globals.
pub fn store_globals(s: &mut State, r: Globals)
    ensures s_after { view s.new ≡ with_globals (view s.old) r }
    ensures s_unchanged { saved s.new ≡ saved s.old }
{
    sized(s);
    write_globals(s, GLOBALS, r);
}

// Loads the allocator.
pub fn load_allocator(s: &State) -> Allocator
    ensures { result ≡ (view s.now).allocator }
{
    read_allocator(s, ALLOCATOR)
}

// Stores the allocator.
pub fn store_allocator(s: &mut State, r: Allocator)
    ensures s_after { view s.new ≡ with_allocator (view s.old) r }
    ensures s_unchanged { saved s.new ≡ saved s.old }
{
    sized(s);
    write_allocator(s, ALLOCATOR, r);
}

// Loads the control request.
pub fn load_control(s: &State) -> Control
    ensures { result ≡ (view s.now).control }
{
    read_control(s, CONTROL)
}

// Stores the control request.
pub fn store_control(s: &mut State, r: Control)
    ensures s_after { view s.new ≡ with_control (view s.old) r }
    ensures s_unchanged { saved s.new ≡ saved s.old }
{
    sized(s);
    write_control(s, CONTROL, r);
}

// The suspended operation stands beside the view.
pub fn load_saved(s: &State) -> Saved
    ensures { result ≡ saved s.now }
{
    read_saved(s, SAVED)
}

// Stores what is saved of a suspended operation.
pub fn store_saved(s: &mut State, r: Saved)
    ensures s_unchanged { view s.new ≡ view s.old }
    ensures s_after { saved s.new ≡ r }
{
    sized(s);
    write_saved(s, SAVED, r);
}
