ghost use Rattle.std.specs.Prelude.{◌≡◌};
ghost use Rattle.script.specs.Machine.{continue};
ghost use Rattle.calls.specs.Sharing.{SharedStep};

use crate::operates::operate;
use answer::Step;
use answer::call_answer_step::step_of;
use bus_time::Time;
use machine::saved::tag;
pub use script_ops::points::INTERRUPT;
use state::State;

// Goes on with the operation under way. An interrupt writes no ep_config, so the record is not looked at.
pub fn proceed(s: &mut State, slots: &mut [u8], time: &mut Time, driver: u32, v: u32) -> Step
    ensures { SharedStep result driver (continue v) s.old s.new
        slots.old slots.new time.old time.new }
{
    if tag(s) == INTERRUPT {
        return step_of(crate::resume::interrupt(s, slots, v));
    }
    operate(s, slots, time, driver, v)
}
