// What a point has: each part is loaded alone from the saved record's bytes. Any bytes are a point.
ghost use Rattle.std.specs.Prelude.{◌≡◌};
ghost use Rattle.state.specs.State.{saved};
ghost use Rattle.script.specs.Statics.{is_on};
ghost use Rattle.interrupt.specs.Codec.{dir_of};
ghost use Rattle.machine.specs.Loads.{list_endpoint_of, completion_of};

use answer::loads::{
    busy_byte, ep_byte, flag_byte, frame_word, late_byte, now_byte, site_byte, st_byte,
};
use interrupt::codec::dir_of;
use regs::Dir;
use script_ops::rings::is_on;
use state::State;

// Is the endpoint enabled, is there a callback, is the packet its stage's first?
pub fn on_at(s: &State) -> bool
    ensures { result ≡ is_on (saved s.now).flag }
{
    is_on(flag_byte(s))
}

// Is the endpoint isochronous, or the bus suspended?
pub fn iso_at(s: &State) -> bool
    ensures { result ≡ is_on (saved s.now).busy }
{
    is_on(busy_byte(s))
}

pub fn dir_at(s: &State) -> Dir
    ensures { result ≡ dir_of (saved s.now).site }
{
    dir_of(site_byte(s))
}

// Of the driver's own points.
pub fn flag_dir_at(s: &State) -> Dir
    ensures { result ≡ dir_of (saved s.now).flag }
{
    dir_of(flag_byte(s))
}

// A list's endpoint: its direction, kind and number, how many are left, and how many there are.
#[derive(Clone, Copy)]
pub struct ListEndpoint {
    pub dir: Dir,
    pub kind: u8,
    pub ep: u8,
    pub left: u8,
    pub total: u8,
}

pub fn list_endpoint_at(s: &State) -> ListEndpoint
    ensures { result ≡ list_endpoint_of (saved s.now) }
{
    ListEndpoint {
        dir: flag_dir_at(s),
        kind: st_byte(s),
        ep: ep_byte(s),
        left: busy_byte(s),
        total: late_byte(s),
    }
}

// A completion of a paced advance: the advance's endpoint, how many completions come after this one, the microframe to
// keep then, the endpoint that completes.
#[derive(Clone, Copy)]
pub struct Completion {
    pub e: u8,
    pub left: u8,
    pub frame: u16,
    pub of: u8,
}

pub fn completion_at(s: &State) -> Completion
    ensures { result ≡ completion_of (saved s.now) }
{
    Completion {
        e: ep_byte(s),
        left: st_byte(s),
        frame: frame_word(s),
        of: now_byte(s),
    }
}
