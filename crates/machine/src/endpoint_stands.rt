// A read or write stands at a point, whose bytes are stored where it is made.
ghost use Rattle.std.specs.Prelude.{◌≡◌};
ghost use Rattle.state.specs.State.{view, saved};
ghost use Rattle.script_ops.specs.Numbers as tags;
ghost use Rattle.regs.specs.declared.Dir.TheVariants as Dir;
ghost use Rattle.endpoint.specs.declared.Point.TheVariants as Point;
ghost use Rattle.endpoint.specs.Codec.{code, dir_as, with_tag};
ghost use Rattle.answer.specs.declared.Step.TheVariants as Step;
ghost use Rattle.machine.specs.declared.Suspended.TheVariants as Under;
ghost use Rattle.machine.specs.Stands.{Stands};

use crate::stands::stand;
use answer::Step;
use endpoint::points::{ACK, WROTE, point};
use regs::{Access, Dir};
use state::State;

// At the point with this number.
fn at(s: &mut State, q: Access, number: u8, d: Dir, e: u8) -> Step
    ensures { (result ≡ Step.Asks q) × ((view s.new ≡ view s.old)
        × (saved s.new ≡ with_tag tags.ENDPOINT (code number (dir_as d) e))) }
{
    stand(s, q, point(number, d, e))
}

// The last write.
pub fn stand_wrote(s: &mut State, q: Access) -> Step
    ensures { Stands result q (Under.Endpoint Point.Wrote) s.old s.new }
{
    at(s, q, WROTE, Dir::Out, 0)
}

// The control word of IN e is read, to answer ACK.
pub fn stand_ack_in(s: &mut State, q: Access, e: u8) -> Step
    ensures { Stands result q (Under.Endpoint (Point.Ack Dir.In e)) s.old s.new }
{
    at(s, q, ACK, Dir::In, e)
}
