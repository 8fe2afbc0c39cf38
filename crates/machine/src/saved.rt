ghost use Rattle.std.specs.Prelude.{◌≡◌, true, cond, eqb, ltb};
ghost use Rattle.state.specs.State.{saved};
ghost use Rattle.machine.specs.Suspended.{decode};
ghost use Rattle.machine.specs.Rows.{is_idle, may_pass};

use script_ops::points::{ADVANCE, INTERRUPT};
use state::State;

// Whose point is saved, by the tags of `script_ops::points`; at any other number nothing is under way.
pub fn tag(s: &State) -> u8
    ensures { result ≡ (saved s.now).tag }
{
    let c = state::load_saved(s);
    c.tag
}

// Is it none of the tags 1 to last?
fn is_none(t: u8, last: u8) -> bool
    ensures { result ≡ cond (eqb t 0) true (ltb last t) }
{
    if t == 0 {
        return true;
    }
    last < t
}

// Is nothing under way? (row 3 turned round)
pub fn is_idle(s: &State) -> bool
    ensures { result ≡ is_idle (decode (saved s.now)) }
{
    is_none(tag(s), INTERRUPT)
}

// May a packet be opened, closed or queued? Nothing is under way, or an interrupt is: the call falls between two of its
// accesses.
pub fn may_pass(s: &State) -> bool
    ensures { result ≡ may_pass (decode (saved s.now)) }
{
    is_none(tag(s), ADVANCE)
}
