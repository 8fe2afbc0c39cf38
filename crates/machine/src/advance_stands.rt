// A paced advance stands at a point of a completion, whose bytes are stored where it is made: with its endpoint, how
// many completions come after this one, the microframe to keep then, and the endpoint that completes.
ghost use Rattle.std.specs.Prelude.{◌≡◌};
ghost use Rattle.state.specs.State.{view, saved};
ghost use Rattle.script_ops.specs.Numbers as tags;
ghost use Rattle.isochronous.specs.declared.complete.Complete.TheVariants as Complete;
ghost use Rattle.isochronous.specs.declared.advance.Advance.TheVariants as Point;
ghost use Rattle.isochronous.specs.Codec.{code, with_tag};
ghost use Rattle.answer.specs.declared.Step.TheVariants as Step;
ghost use Rattle.machine.specs.declared.Suspended.TheVariants as Under;
ghost use Rattle.machine.specs.Stands.{Stands};

use crate::stands::stand;
use answer::Step;
use isochronous::points::{LOADED, SENT, point};
use regs::Access;
use state::State;

// At the point with this number.
fn at(s: &mut State, q: Access, number: u8, e: u8, left: u8, frame: u16, of: u8) -> Step
    ensures { (result ≡ Step.Asks q) × ((view s.new ≡ view s.old)
        × (saved s.new ≡ with_tag tags.ADVANCE (code number e left frame of))) }
{
    stand(s, q, point(number, e, left, frame, of))
}

// The transmit address is written.
pub fn stand_sent(s: &mut State, q: Access, e: u8, left: u8, frame: u16, of: u8) -> Step
    ensures { Stands result q (Under.Advance (Point.Completing e left frame (Complete.Sent of))) s.old
        s.new }
{
    at(s, q, SENT, e, left, frame, of)
}

// Ep_t_len is.
pub fn stand_loaded(s: &mut State, q: Access, e: u8, left: u8, frame: u16, of: u8) -> Step
    ensures { Stands result q (Under.Advance (Point.Completing e left frame (Complete.Loaded of))) s.old
        s.new }
{
    at(s, q, LOADED, e, left, frame, of)
}
