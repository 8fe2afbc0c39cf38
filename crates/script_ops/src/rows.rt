// The rows by name; rows 4 and 5, by the numbers that a call brings: EP0 is started; an endpoint's number, allocated in
// the direction.
ghost use Rattle.std.specs.Prelude.{◌≡◌, true, ◌&&◌, ℕ, ◌<◌};
ghost use Rattle.bits.specs.Bit.{bit_is_set};
ghost use Rattle.state.specs.State.{view};
ghost use Rattle.script.specs.Answers.{is_number, is_allocated};
ghost use Rattle.script_ops.specs.Rows.{refusal_of, stallable};

use regs::Dir;
use state::{Allocator, State};

// The rows of document 01's table that a driver's call may answer, by the names of include/usbhs.h. `alloc` has 6 to 8
// and
// 22, `descriptor` 17 and 18.
pub const SLOTS_LENGTH: u8 = 1;

pub const GEOMETRY: u8 = 2;

pub const UNDER_WAY: u8 = 3;

pub const STAGE: u8 = 4;

pub const NO_ENDPOINT: u8 = 5;

pub const DISABLED: u8 = 9;

pub const LENGTH: u8 = 10;

pub const NOT_ISOCHRONOUS: u8 = 11;

pub const NO_PACKET: u8 = 12;

pub const FULL: u8 = 13;

pub const NOT_OPEN: u8 = 14;

pub const NOT_BEGUN: u8 = 15;

pub const READING: u8 = 16;

pub const BUS_TIME: u8 = 19;

// The stages of a driver: after start-up, and after EP0's start.
pub const STARTED_UP: u8 = 1;

pub const STARTED: u8 = 2;

// 1 to 15: an endpoint's number other than EP0's.
pub fn is_number(e: u32) -> bool
    ensures { result ≡ is_number e }
{
    if 0 < e {
        return e < 16;
    }
    false
}

// A number of any size as an endpoint's: its low byte.
pub fn low(e: u32) -> u8
    requires { is_number e ≡ true }
    ensures { result ≡ e }
{
    e as u8
}

// The numbers that are allocated in a direction.
fn allocated(a: Allocator, dir: Dir) -> u16
    ensures { (e : ℕ) → is_allocated a dir e ≡ (is_number e && bit_is_set result e) }
{
    match dir {
        Dir::Out => a.allocated_out,
        Dir::In => a.allocated_in,
    }
}

// Is it an endpoint's number, allocated in the direction?
pub fn is_allocated(s: &State, dir: Dir, e: u32) -> bool
    ensures { result ≡ is_allocated (view s.now).allocator dir e }
{
    if is_number(e) {
        let a = state::load_allocator(s);
        return bits::mask_has(allocated(a, dir), low(e));
    }
    false
}

// The row that refuses a call: 4, EP0 is not started; 5, the endpoint is not allocated in the direction; 0, neither.
pub fn refusal(s: &State, dir: Dir, e: u32) -> u8
    ensures { result ≡ refusal_of (view s.now) dir e }
{
    let g = state::load_globals(s);
    if g.stage == STARTED {
        if is_allocated(s, dir, e) {
            return 0;
        }
        return NO_ENDPOINT;
    }
    STAGE
}

// Row 5 of stalls, which take EP0 too.
pub fn is_stallable(s: &State, dir: Dir, e: u32) -> bool
    ensures { result ≡ stallable (view s.now).allocator dir e }
{
    if e == 0 {
        return true;
    }
    is_allocated(s, dir, e)
}

// An endpoint's number, EP0's included.
pub fn endpoint(e: u32) -> u8
    requires { e < 16 }
    ensures { result ≡ e }
{
    e as u8
}
