// Start-up, allocation and EP0's start.
ghost use Rattle.std.specs.Prelude.{◌≡◌, cond, List, [], ℕ, eqb};
ghost use Rattle.state.specs.State.{view};
ghost use Rattle.script.specs.Machine.{start};
ghost use Rattle.script.specs.Calls.{Allocate, Start, start_row};
ghost use Rattle.script.specs.Statics.{flag};
ghost use Rattle.machine.specs.Suspended.{machine_of, drive, answer_of, config_of, SavedByAnswer};
ghost use Rattle.machine.specs.CallContracts.{OtherCall};

use alloc::Answer;
use answer::Step;
use machine::halts::suspend_or_end;
use machine::stops::stop;
use regs::Dir;
use script_ops::rows;
use state::State;

// Allocation (mod.rs 953-1043, endpoint.rs 18-36): rows 6, 7, 8 are the allocator's answer.
pub fn allocate(
    s: &mut State,
    dir: Dir,
    kind: u8,
    address: u32,
    maximum: u32,
    interval: u32,
) -> Step
    ensures { OtherCall (Allocate dir kind address maximum interval) result s.old s.new }
{
    let n = stop(s, rows::STARTED_UP);
    if n == 0 {
        let z = script_ops::records::allocate(s, dir, kind, address, maximum, interval);
        match z {
            Answer::Refused(row) => {
                return Step::Refused(row);
            }
            Answer::Given(e, _base, _slots) => {
                state::clear_wakes(s);
                return suspend_or_end(s, driver::new_endpoint(dir, kind, maximum, e));
            }
        }
    }
    Step::Refused(n)
}

// EP0's start (mod.rs 1144-1178): gives EP0 its slot and its maximum.
pub fn start(s: &mut State, maximum: u32) -> Step
    ensures { OtherCall (Start maximum) result s.old s.new }
{
    let n = stop(s, rows::STARTED_UP);
    if n == 0 {
        let z = script_ops::records::allocate0(s, maximum);
        match z {
            Answer::Refused(row) => {
                return Step::Refused(row);
            }
            Answer::Given(_e, _base, _slots) => {
                state::clear_wakes(s);
                return suspend_or_end(s, driver::start_ep0(s, maximum));
            }
        }
    }
    Step::Refused(n)
}

fn flag_of(on: bool) -> u8
    ensures { result ≡ flag on }
{
    if on {
        return 1;
    }
    0
}

// Start-up on any state (mod.rs 886-951), whatever is under way: a refused one changes nothing.
pub fn start_up(s: &mut State, slots: &[u8], size: u32, count: u32, callback: bool) -> Step
    ensures by_index { (a : List ℕ) → (
      answer_of result [] (view s.new),
      machine_of s.new (cond (eqb (start_row (config_of size count callback) slots.now) 0)
          slots.now a),
    ) ≡ drive (start (config_of size count callback)) (machine_of s.old a) slots.now }
    ensures saved_by_answer { SavedByAnswer result s.old s.new }
{
    if alloc::buffer::fits(slots.len() as u64, size, count) {
        if alloc::buffer::good_buffer(size, count) {
            state::fresh(s, size as u16, count as u16, flag_of(callback));
            state::clear_wakes(s);
            return suspend_or_end(s, driver::start_up(callback));
        }
        return Step::Refused(rows::GEOMETRY);
    }
    Step::Refused(rows::SLOTS_LENGTH)
}
