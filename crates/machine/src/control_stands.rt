// An operation of the control pipe's stands at a point, whose bytes are stored where it is made.
ghost use Rattle.std.specs.Prelude.{◌≡◌};
ghost use Rattle.state.specs.State.{view, saved};
ghost use Rattle.script.specs.Statics.{flag};
ghost use Rattle.script_ops.specs.Numbers as tags;
ghost use Rattle.regs.specs.declared.Dir.TheVariants as Dir;
ghost use Rattle.control.specs.declared.Point.TheVariants as Point;
ghost use Rattle.control.specs.Codec.{code, dir_as, with_tag};
ghost use Rattle.answer.specs.declared.Step.TheVariants as Step;
ghost use Rattle.machine.specs.declared.Suspended.TheVariants as Under;
ghost use Rattle.machine.specs.Stands.{Stands};

use crate::stands::stand;
use answer::Step;
use control::points::{ACK, LOADED, STALL_OUT, STALLED_IN, STATUS, WROTE, point};
use regs::{Access, Dir};
use state::State;

// At the point with this number.
fn at(s: &mut State, q: Access, number: u8, d: Dir, first: bool) -> Step
    ensures { (result ≡ Step.Asks q) × ((view s.new ≡ view s.old)
        × (saved s.new ≡ with_tag tags.CONTROL (code number (dir_as d) (flag first) 0))) }
{
    stand(s, q, point(number, d, first, 0))
}

// The last write.
pub fn stand_wrote(s: &mut State, q: Access) -> Step
    ensures { Stands result q (Under.Control Point.Wrote) s.old s.new }
{
    at(s, q, WROTE, Dir::Out, false)
}

// IN's control word is read, to answer ACK.
pub fn stand_ack_in(s: &mut State, q: Access) -> Step
    ensures { Stands result q (Under.Control (Point.Ack Dir.In)) s.old s.new }
{
    at(s, q, ACK, Dir::In, false)
}

// It is read, for the status stage.
pub fn stand_status(s: &mut State, q: Access) -> Step
    ensures { Stands result q (Under.Control Point.Status) s.old s.new }
{
    at(s, q, STATUS, Dir::Out, false)
}

// It is stalled.
pub fn stand_stalled_in(s: &mut State, q: Access) -> Step
    ensures { Stands result q (Under.Control Point.StalledIn) s.old s.new }
{
    at(s, q, STALLED_IN, Dir::Out, false)
}

// OUT's is read, to be stalled.
pub fn stand_stall_out(s: &mut State, q: Access) -> Step
    ensures { Stands result q (Under.Control Point.StallOut) s.old s.new }
{
    at(s, q, STALL_OUT, Dir::Out, false)
}

// Ep_t_len is written; the stage's first packet.
pub fn stand_loaded(s: &mut State, q: Access, first: bool) -> Step
    ensures { Stands result q (Under.Control (Point.Loaded first)) s.old s.new }
{
    at(s, q, LOADED, Dir::Out, first)
}
