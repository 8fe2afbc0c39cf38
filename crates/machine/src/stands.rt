// An operation stands at a point, or ends: the saved record's 22 bytes are stored where the point is made, and its
// access is the answer.
ghost use Rattle.std.specs.Prelude.{◌≡◌};
ghost use Rattle.state.specs.State.{view, saved};
ghost use Rattle.answer.specs.declared.Step.TheVariants as Step;
ghost use Rattle.machine.specs.Stands.{Ends};

use answer::Step;
use answer::woken::how_many;
use regs::Access;
use state::{Saved, State, nothing, store_saved};

// The operation is under way at the point whose record is stored, and its access is handed out.
pub fn stand(s: &mut State, q: Access, c: Saved) -> Step
    ensures { (result ≡ Step.Asks q) × ((view s.new ≡ view s.old)
        × (saved s.new ≡ c)) }
{
    store_saved(s, c);
    Step::Asks(q)
}

// The operation has ended with its result: nothing is under way, and its wake-ups are answered.
pub fn stop(s: &mut State, n: u16) -> Step
    ensures { Ends result n s.old s.new }
{
    store_saved(s, nothing());
    let k = how_many(s);
    Step::Ends(n, k)
}
