// The points of reads and writes in the saved record: their numbers, and what is saved of each.
ghost use Rattle.std.specs.Prelude.{◌≡◌};
ghost use Rattle.script_ops.specs.Numbers as tags;
ghost use Rattle.script_ops.specs.Numbers.{dir_as, with_tag};
ghost use Rattle.endpoint.specs.Codec.{code};

use regs::Dir;
use script_ops::points::{ENDPOINT, dir_as};
use state::Saved;

// The numbers of the points.
pub const WROTE: u8 = 0;

pub const ACK: u8 = 1;

pub const LOADED: u8 = 2;

// What is saved of a point: its direction and its endpoint.
pub fn point(number: u8, d: Dir, e: u8) -> Saved
    ensures { result ≡ with_tag tags.ENDPOINT (code number (dir_as d) e) }
{
    Saved {
        tag: ENDPOINT,
        sub: number,
        site: dir_as(d),
        flag: 0,
        busy: 0,
        late: 0,
        len_ok: 0,
        st: 0,
        now: 0,
        ep: e,
        len: 0,
        frame: 0,
        eps: 0,
        n: 0,
        value: 0,
    }
}
