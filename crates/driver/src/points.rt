// The points of the driver's own operations in the saved record: their numbers, and what is saved of each.
ghost use Rattle.std.specs.Prelude.{◌≡◌};
ghost use Rattle.script.specs.Statics.{flag};
ghost use Rattle.script_ops.specs.Numbers as tags;
ghost use Rattle.script_ops.specs.Numbers.{dir_as, with_tag};
ghost use Rattle.driver.specs.Codec.{code, list_code};

use regs::Dir;
use script_ops::points::{DRIVER, dir_as, flag_of};
use state::Saved;

// The numbers of the points.
pub const CLEAR: u8 = 0;

pub const WAIT: u8 = 1;

pub const RESET: u8 = 2;

pub const RESET_END: u8 = 3;

pub const HOST: u8 = 4;

pub const RUN: u8 = 5;

pub const INT_EN: u8 = 6;

pub const MAX_LEN: u8 = 7;

pub const PLACE: u8 = 8;

pub const EP0_PLACE: u8 = 9;

pub const EP0_MAX_LEN: u8 = 10;

pub const EP0_RX: u8 = 11;

pub const EP0_TX: u8 = 12;

pub const EP0_PACKET: u8 = 13;

pub const FRAME_NO: u8 = 14;

pub const LIST_MAX_LEN: u8 = 15;

pub const LIST_PLACE: u8 = 16;

// What is saved of a point of start-up, with the callback, or of EP0's start, with the maximum.
pub fn point(number: u8, callback: bool, maximum: u32) -> Saved
    ensures { result ≡ with_tag tags.DRIVER (code number (flag callback) 0 0 maximum) }
{
    Saved {
        tag: DRIVER,
        sub: number,
        site: 0,
        flag: flag_of(callback),
        busy: 0,
        late: 0,
        len_ok: 0,
        st: 0,
        now: 0,
        ep: 0,
        len: 0,
        frame: 0,
        eps: 0,
        n: 0,
        value: maximum,
    }
}

// Of an endpoint that is announced: its direction, kind and number; of a list's also how many are left and how many
// there are.
pub fn endpoint(number: u8, d: Dir, kind: u8, ep: u8, left: u8, total: u8) -> Saved
    ensures { result ≡ with_tag tags.DRIVER (list_code number (dir_as d) kind ep left total) }
{
    Saved {
        tag: DRIVER,
        sub: number,
        site: 0,
        flag: dir_as(d),
        busy: left,
        late: total,
        len_ok: 0,
        st: kind,
        now: 0,
        ep,
        len: 0,
        frame: 0,
        eps: 0,
        n: 0,
        value: 0,
    }
}
