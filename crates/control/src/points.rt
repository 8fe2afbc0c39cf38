// The points of the control pipe's operations in the saved record: their numbers, and what is saved of each.
ghost use Rattle.std.specs.Prelude.{◌≡◌};
ghost use Rattle.script.specs.Statics.{flag};
ghost use Rattle.script_ops.specs.Numbers as tags;
ghost use Rattle.script_ops.specs.Numbers.{dir_as, with_tag};
ghost use Rattle.control.specs.Codec.{code};

use regs::Dir;
use script_ops::points::{CONTROL, dir_as, flag_of};
use state::Saved;

// The numbers of the points.
pub const WROTE: u8 = 0;

pub const ACK: u8 = 1;

pub const STATUS_LEN: u8 = 2;

pub const STATUS: u8 = 3;

pub const STALL_IN: u8 = 4;

pub const STALLED_IN: u8 = 5;

pub const STALL_OUT: u8 = 6;

pub const CLOSING: u8 = 7;

pub const LOADED: u8 = 8;

// What is saved of a point: its direction, whether the packet is its stage's first, a length.
pub fn point(number: u8, d: Dir, first: bool, n: u16) -> Saved
    ensures { result ≡ with_tag tags.CONTROL (code number (dir_as d) (flag first) n) }
{
    Saved {
        tag: CONTROL,
        sub: number,
        site: dir_as(d),
        flag: flag_of(first),
        busy: 0,
        late: 0,
        len_ok: 0,
        st: 0,
        now: 0,
        ep: 0,
        len: n,
        frame: 0,
        eps: 0,
        n: 0,
        value: 0,
    }
}
