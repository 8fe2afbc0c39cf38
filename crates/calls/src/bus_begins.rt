ghost use Rattle.script.specs.Calls.{BusEnable, BusDisable, BusPoll, IsStalled, SetStalled, SetEnabled};
ghost use Rattle.machine.specs.CallContracts.{OtherCall, SlottedCall};
ghost use Rattle.calls.specs.Enters.{Enters};

use answer::Step;
use machine::halts::suspend_or_end_bus;
use machine::stops::{slots_fit, stop};
use regs::Dir;
use script_ops::rows;
use script_ops::rows::{endpoint, is_allocated, is_stallable, low};
use state::State;

// The row that stops a call after EP0's start, as `stop` says it; where none does, the call's wake-ups are gathered
// from none.
fn enter(s: &mut State) -> u8
    ensures { Enters result s.old s.new }
{
    let n = stop(s, rows::STARTED);
    if n == 0 {
        state::clear_wakes(s);
        return 0;
    }
    n
}

// Begins `Bus::enable` (mod.rs 1225-1227).
pub fn begin_bus_enable(s: &mut State) -> Step
    ensures { OtherCall BusEnable result s.old s.new }
{
    let n = enter(s);
    if n == 0 {
        return suspend_or_end_bus(s, bus::events::enable());
    }
    Step::Refused(n)
}

// `disable`, which has no access.
pub fn begin_bus_disable(s: &mut State) -> Step
    ensures { OtherCall BusDisable result s.old s.new }
{
    let n = enter(s);
    if n == 0 {
        return suspend_or_end_bus(s, bus::Next::Ends(0));
    }
    Step::Refused(n)
}

// Begins `Bus::poll` (mod.rs 1229-1266).
pub fn begin_bus_poll(s: &mut State) -> Step
    ensures { OtherCall BusPoll result s.old s.new }
{
    let n = enter(s);
    if n == 0 {
        let x = bus::event::poll(s);
        return suspend_or_end_bus(s, x);
    }
    Step::Refused(n)
}

// Begins `is_endpoint_stalled` (mod.rs 1101-1106).
pub fn begin_is_stalled(s: &mut State, dir: Dir, e: u32) -> Step
    ensures { OtherCall (IsStalled dir e) result s.old s.new }
{
    let n = stop(s, rows::STARTED);
    if n == 0 {
        if is_stallable(s, dir, e) {
            state::clear_wakes(s);
            let x = bus::set_stalled::is_endpoint_stalled(dir, endpoint(e));
            return suspend_or_end_bus(s, x);
        }
        return Step::Refused(rows::NO_ENDPOINT);
    }
    Step::Refused(n)
}

// Begins `set_endpoint_stalled` (mod.rs 1053-1099).
pub fn begin_set_stalled(s: &mut State, dir: Dir, e: u32, on: bool) -> Step
    ensures { OtherCall (SetStalled dir e on) result s.old s.new }
{
    let n = stop(s, rows::STARTED);
    if n == 0 {
        if is_stallable(s, dir, e) {
            state::clear_wakes(s);
            let x = bus::set_stalled::set_endpoint_stalled(s, dir, endpoint(e), on);
            return suspend_or_end_bus(s, x);
        }
        return Step::Refused(rows::NO_ENDPOINT);
    }
    Step::Refused(n)
}

// `endpoint_set_enabled` (mod.rs 1268-1330).
pub fn begin_set_enabled(s: &mut State, slots: &mut [u8], dir: Dir, e: u32, on: bool) -> Step
    ensures { SlottedCall (SetEnabled dir e on) result s.old slots.old s.new
        slots.new }
{
    if slots_fit(s, slots) {
        let n = stop(s, rows::STARTED);
        if n == 0 {
            if is_allocated(s, dir, e) {
                state::clear_wakes(s);
                let x = bus::set_enabled::endpoint_set_enabled(s, slots, dir, low(e), on);
                return suspend_or_end_bus(s, x);
            }
            return Step::Refused(rows::NO_ENDPOINT);
        }
        return Step::Refused(n);
    }
    Step::Refused(rows::SLOTS_LENGTH)
}
