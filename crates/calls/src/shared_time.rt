// The calls that a driver's bus time goes through: start-up and an endpoint's enabling, with the record that up to four
// drivers share
// (crate `req_bus_time`); continue is in crate `usbhs`. `driver` is the caller's number in the record, modulo 4. Each
// call is the driver's own, but for row 19.

ghost use Rattle.std.specs.Prelude.{◌≡◌, cond, true, List, [], ℕ, eqb};
ghost use Rattle.state.specs.State.{view, saved};
ghost use Rattle.script.specs.Machine.{start, begin};
ghost use Rattle.script.specs.Calls.{slotted, SetEnabled, start_row};
ghost use Rattle.machine.specs.Suspended.{decode, machine_of, answer_of, config_of, SavedByAnswer};
ghost use Rattle.calls.specs.Sharing.{shared_call, SharedStep};
ghost use Rattle.calls.specs.Accepts.{accepts};

use crate::charges::{charge_on, charged, started};
use answer::Step;
use bus_time::{Time, entry, passes};
use machine::stops::{slots_fit, stop};
use regs::Dir;
use script_ops::rows;
use script_ops::rows::is_allocated;
use state::State;

// Start-up on any state: an accepted one gives back what the driver was charged.
pub fn start_up(
    s: &mut State,
    slots: &[u8],
    time: &mut Time,
    driver: u32,
    size: u32,
    count: u32,
    callback: bool,
) -> Step
    ensures by_index { (a : List ℕ) → (
      (
        answer_of result [] (view s.new),
        machine_of s.new (cond (eqb (start_row (config_of size count callback) slots.now) 0)
            slots.now a),
      ),
      time.new,
    ) ≡ shared_call driver (start (config_of size count callback)) (machine_of s.old a) time.old
        slots.now }
    ensures saved_by_answer { SavedByAnswer result s.old s.new }
{
    let step = crate::start::start_up(s, slots, size, count, callback);
    started(time, driver, step);
    step
}

// Rows 1, 3, 4 and 5 turned round.
fn is_accepted(s: &State, slots: &[u8], dir: Dir, e: u32) -> bool
    ensures { result ≡ accepts (view s.now) (decode (saved s.now)) slots.now dir
        e }
{
    if slots_fit(s, slots) {
        if stop(s, rows::STARTED) == 0 {
            return is_allocated(s, dir, e);
        }
        return false;
    }
    false
}

// Row 19 changes nothing; an enabling counts from its begin, once however often it is enabled.
fn enable(s: &mut State, slots: &mut [u8], time: &mut Time, driver: u32, dir: Dir, e: u32) -> Step
    ensures { SharedStep result driver (begin (slotted (SetEnabled dir e true))) s.old s.new
        slots.old slots.new time.old time.new }
{
    let at = entry(driver, dir, e);
    let charge = charge_on(s, dir, e);
    if passes(time, at, charge) {
        if is_accepted(s, slots, dir, e) {
            return Step::Refused(rows::BUS_TIME);
        }
        return crate::bus_begins::begin_set_enabled(s, slots, dir, e, true);
    }
    let step = crate::bus_begins::begin_set_enabled(s, slots, dir, e, true);
    charged(time, at, charge, step);
    step
}

// The endpoint enabled or disabled.
pub fn begin_set_enabled(
    s: &mut State,
    slots: &mut [u8],
    time: &mut Time,
    driver: u32,
    dir: Dir,
    e: u32,
    on: bool,
) -> Step
    ensures { SharedStep result driver (begin (slotted (SetEnabled dir e on))) s.old s.new
        slots.old slots.new time.old time.new }
{
    if on {
        return enable(s, slots, time, driver, dir, e);
    }
    crate::bus_begins::begin_set_enabled(s, slots, dir, e, false)
}
