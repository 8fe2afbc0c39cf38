// An operation of the bus stands at a point, whose bytes are stored where it is made.
ghost use Rattle.std.specs.Prelude.{◌≡◌};
ghost use Rattle.state.specs.State.{view, saved};
ghost use Rattle.script.specs.Statics.{flag};
ghost use Rattle.script_ops.specs.Numbers as tags;
ghost use Rattle.bus.specs.declared.Point.TheVariants as Point;
ghost use Rattle.bus.specs.Codec.{code, dir_as, with_tag};
ghost use Rattle.answer.specs.declared.Step.TheVariants as Step;
ghost use Rattle.machine.specs.declared.Suspended.TheVariants as Under;
ghost use Rattle.machine.specs.Stands.{Stands};

use crate::stands::stand;
use answer::Step;
use bus::points::{
    ADDRESS, DISABLED, EP0_OUT, EVENT, NAK_IN, NAKED, NO_LENGTH, RELEASED, RESET, SINGLE,
    STALL_WORD, STATUS, SWITCH, TYPE, UNTYPED, WOKEN, WORDS, point,
};
use regs::{Access, Dir};
use state::State;

// At the point with this number.
fn at(s: &mut State, q: Access, number: u8, d: Dir, on: bool, iso: bool, n: u8, e: u8) -> Step
    ensures { (result ≡ Step.Asks q) × ((view s.new ≡ view s.old)
        × (saved s.new ≡ with_tag tags.BUS (code number (dir_as d) (flag on) (flag iso) n e))) }
{
    stand(s, q, point(number, d, on, iso, n, e))
}

// The last access; the result.
pub fn stand_event(s: &mut State, q: Access, n: u8) -> Step
    ensures { Stands result q (Under.Bus (Point.Event n)) s.old s.new }
{
    at(s, q, EVENT, Dir::Out, false, false, n, 0)
}

// A control word is read, to be stalled.
pub fn stand_stall_word(s: &mut State, q: Access, d: Dir, e: u8) -> Step
    ensures { Stands result q (Under.Bus (Point.StallWord d e)) s.old s.new }
{
    at(s, q, STALL_WORD, d, false, false, 0, e)
}

// The last access; the endpoint is woken.
pub fn stand_woken(s: &mut State, q: Access, d: Dir, e: u8) -> Step
    ensures { Stands result q (Under.Bus (Point.Woken d e)) s.old s.new }
{
    at(s, q, WOKEN, d, false, false, 0, e)
}

// Mis_st is read.
pub fn stand_status(s: &mut State, q: Access) -> Step
    ensures { Stands result q (Under.Bus Point.Status) s.old s.new }
{
    at(s, q, STATUS, Dir::Out, false, false, 0, 0)
}

// The suspend flag is cleared; suspended.
pub fn stand_released(s: &mut State, q: Access, down: bool) -> Step
    ensures { Stands result q (Under.Bus (Point.Released down)) s.old s.new }
{
    at(s, q, RELEASED, Dir::Out, false, down, 0, 0)
}

// Dev_ad is 0.
pub fn stand_address(s: &mut State, q: Access) -> Step
    ensures { Stands result q (Under.Bus Point.Address) s.old s.new }
{
    at(s, q, ADDRESS, Dir::Out, false, false, 0, 0)
}

// EP0's OUT answers ACK.
pub fn stand_ep0_out(s: &mut State, q: Access) -> Step
    ensures { Stands result q (Under.Bus Point.Ep0Out) s.old s.new }
{
    at(s, q, EP0_OUT, Dir::Out, false, false, 0, 0)
}

// IN e answers NAK.
pub fn stand_nak_in(s: &mut State, q: Access, e: u8) -> Step
    ensures { Stands result q (Under.Bus (Point.NakIn e)) s.old s.new }
{
    at(s, q, NAK_IN, Dir::Out, false, false, 0, e)
}

// Endpoint e answers NAK.
pub fn stand_naked(s: &mut State, q: Access, e: u8) -> Step
    ensures { Stands result q (Under.Bus (Point.Naked e)) s.old s.new }
{
    at(s, q, NAKED, Dir::Out, false, false, 0, e)
}

// Ep_config is 0.
pub fn stand_disabled(s: &mut State, q: Access) -> Step
    ensures { Stands result q (Under.Bus Point.Disabled) s.old s.new }
{
    at(s, q, DISABLED, Dir::Out, false, false, 0, 0)
}

// Ep_type is.
pub fn stand_untyped(s: &mut State, q: Access) -> Step
    ensures { Stands result q (Under.Bus Point.Untyped) s.old s.new }
{
    at(s, q, UNTYPED, Dir::Out, false, false, 0, 0)
}

// Ep_buf_mod is.
pub fn stand_single(s: &mut State, q: Access) -> Step
    ensures { Stands result q (Under.Bus Point.Single) s.old s.new }
{
    at(s, q, SINGLE, Dir::Out, false, false, 0, 0)
}

// The reset flag is cleared.
pub fn stand_reset(s: &mut State, q: Access) -> Step
    ensures { Stands result q (Under.Bus Point.Reset) s.old s.new }
{
    at(s, q, RESET, Dir::Out, false, false, 0, 0)
}

// Ep_t_len is 0; isochronous, enabled.
pub fn stand_no_length(s: &mut State, q: Access, e: u8, iso: bool, on: bool) -> Step
    ensures { Stands result q (Under.Bus (Point.NoLength e iso on)) s.old s.new }
{
    at(s, q, NO_LENGTH, Dir::Out, on, iso, 0, e)
}

// The control word is set; isochronous, enabled.
pub fn stand_words(s: &mut State, q: Access, d: Dir, e: u8, iso: bool, on: bool) -> Step
    ensures { Stands result q (Under.Bus (Point.Words d e iso on)) s.old s.new }
{
    at(s, q, WORDS, d, on, iso, 0, e)
}

// Ep_type is set; enabled.
pub fn stand_typed(s: &mut State, q: Access, d: Dir, e: u8, on: bool) -> Step
    ensures { Stands result q (Under.Bus (Point.Type d e on)) s.old s.new }
{
    at(s, q, TYPE, d, on, false, 0, e)
}

// In the row of an isochronous OUT; enabled, how many of its accesses are left.
pub fn stand_switch(s: &mut State, q: Access, e: u8, on: bool, n: u8) -> Step
    ensures { Stands result q (Under.Bus (Point.Switch e on n)) s.old s.new }
{
    at(s, q, SWITCH, Dir::Out, on, false, n, e)
}
