// The points of the bus's operations in the saved record: their numbers, and what is saved of each.
ghost use Rattle.std.specs.Prelude.{◌≡◌};
ghost use Rattle.script.specs.Statics.{flag};
ghost use Rattle.script_ops.specs.Numbers as tags;
ghost use Rattle.script_ops.specs.Numbers.{dir_as, with_tag};
ghost use Rattle.bus.specs.Codec.{code};

use regs::Dir;
use script_ops::points::{BUS, dir_as, flag_of};
use state::Saved;

// The numbers of the points.
pub const ENABLE: u8 = 0;

pub const EVENT: u8 = 1;

pub const STALLED: u8 = 2;

pub const STALL_LEN: u8 = 3;

pub const STALL_WORD: u8 = 4;

pub const RESTARTED: u8 = 5;

pub const WOKEN: u8 = 6;

pub const FLAGS: u8 = 7;

pub const STATUS: u8 = 8;

pub const RELEASED: u8 = 9;

pub const ADDRESS: u8 = 10;

pub const EP0_OUT: u8 = 11;

pub const NAK_IN: u8 = 12;

pub const NAKED: u8 = 13;

pub const DISABLED: u8 = 14;

pub const UNTYPED: u8 = 15;

pub const SINGLE: u8 = 16;

pub const RESET: u8 = 17;

pub const PLACED_OUT: u8 = 18;

pub const PLACED_IN: u8 = 19;

pub const NO_LENGTH: u8 = 20;

pub const WORDS: u8 = 21;

pub const TYPE: u8 = 22;

pub const SWITCH: u8 = 23;

// What is saved of a point: its direction, enabled, isochronous or suspended, a count or a result, its endpoint.
pub fn point(number: u8, d: Dir, on: bool, iso: bool, n: u8, e: u8) -> Saved
    ensures { result ≡ with_tag tags.BUS (code number (dir_as d) (flag on) (flag iso) n e) }
{
    Saved {
        tag: BUS,
        sub: number,
        site: dir_as(d),
        flag: flag_of(on),
        busy: flag_of(iso),
        late: 0,
        len_ok: 0,
        st: n,
        now: 0,
        ep: e,
        len: 0,
        frame: 0,
        eps: 0,
        n: 0,
        value: 0,
    }
}
