// Any operation but the interrupt goes on: a write of ep_config gives back what it clears.
ghost use Rattle.std.specs.Prelude.{◌≡◌};
ghost use Rattle.state.specs.State.{saved};
ghost use Rattle.script.specs.Machine.{continue};
ghost use Rattle.script_ops.specs.Numbers as tags;
ghost use Rattle.calls.specs.Sharing.{SharedStep};

use crate::charges::gone_on;
use answer::Step;
use bus_time::Time;
use state::State;

// Continues the operation that is under way with what was read; no interrupt's.
pub fn operate(s: &mut State, slots: &mut [u8], time: &mut Time, driver: u32, v: u32) -> Step
    requires { (saved s.old).tag ≡ tags.INTERRUPT → ⊥ }
    ensures { SharedStep result driver (continue v) s.old s.new
        slots.old slots.new time.old time.new }
{
    let step = crate::resume::operation(s, slots, v);
    gone_on(time, driver, step);
    step
}
