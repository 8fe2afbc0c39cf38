// The points of a paced advance in the saved record: their numbers, and what is saved of each.
ghost use Rattle.std.specs.Prelude.{◌≡◌};
ghost use Rattle.script_ops.specs.Numbers as tags;
ghost use Rattle.script_ops.specs.Numbers.{with_tag};
ghost use Rattle.isochronous.specs.Codec.{code};

use script_ops::points::ADVANCE;
use state::Saved;

// The numbers of the points.
pub const FRAME_NO: u8 = 0;

pub const SENT: u8 = 1;

pub const LOADED: u8 = 2;

// What is saved of a point: its endpoint, the completions left, their microframe, and the completion's endpoint.
pub fn point(number: u8, e: u8, left: u8, frame: u16, of: u8) -> Saved
    ensures { result ≡ with_tag tags.ADVANCE (code number e left frame of) }
{
    Saved {
        tag: ADVANCE,
        sub: number,
        site: 0,
        flag: 0,
        busy: 0,
        late: 0,
        len_ok: 0,
        st: left,
        now: of,
        ep: e,
        len: 0,
        frame,
        eps: 0,
        n: 0,
        value: 0,
    }
}
