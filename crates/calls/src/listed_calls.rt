// Endpoints from a configuration descriptor (requests Three and Four).
ghost use Rattle.std.specs.Prelude.{◌≡◌, true, List, [], ℕ};
ghost use Rattle.descriptor.specs.Writing.{stored};
ghost use Rattle.state.specs.State.{view, saved};
ghost use Rattle.script.specs.Calls.{AllocateAll};
ghost use Rattle.machine.specs.Suspended.{decode, machine_of, answer_of, SavedByAnswer};
ghost use Rattle.machine.specs.Rows.{is_idle, stop_of};
ghost use Rattle.machine.specs.CallContracts.{OtherCall};
ghost use Rattle.calls.specs.Listed.{allocated_all, previewed};

use answer::Step;
use descriptor::preview::Shown;
use descriptor::{Answer, Endpoints};
use machine::halts::suspend_or_end;
use machine::stops::stop;
use script_ops::rows;
use state::State;

// All or none, where nothing is under way: the refusal of the first that would be refused, or all allocated and the
// first announced.
fn allocate_listed(s: &mut State, list: Endpoints) -> Step
    requires { is_idle (decode (saved s.old)) ≡ true }
    ensures by_index { (b : List ℕ) → (
      answer_of result [] (view s.new),
      machine_of s.new b,
    ) ≡ allocated_all (stored list) (view s.old) b }
    ensures saved_by_answer { SavedByAnswer result s.old s.new }
{
    let t = descriptor::preview::try_all(state::load_allocator(s), list);
    let row = t.refusal;
    if row == 0 {
        driver::alloc_all::allocate_each(s, list);
        state::clear_wakes(s);
        return suspend_or_end(s, driver::alloc_all::announce_all(s, list));
    }
    Step::Refused(row)
}

// A descriptor's endpoints allocated in its order, or none: rows 3, 4, 17, 18, then 6, 7 or 8 of the first that would
// be refused.
pub fn allocate_all(s: &mut State, bytes: &[u8]) -> Step
    ensures { OtherCall (AllocateAll bytes.now) result s.old s.new }
{
    let n = stop(s, rows::STARTED_UP);
    if n == 0 {
        let r = descriptor::read(bytes);
        let answer = r.answer;
        match answer {
            Answer::Refused(row) => {
                return Step::Refused(row);
            }
            Answer::Listed => {
                let list = r.list;
                return allocate_listed(s, list);
            }
        }
    }
    Step::Refused(n)
}

// What allocating a descriptor's endpoints one by one would give, up to the first refusal: rows 3, 4, 17, 18 as above.
// The state is untouched.
pub fn preview(s: &State, bytes: &[u8]) -> Shown
    ensures { result ≡ previewed (stop_of (is_idle (decode (saved s.now))) 1
        (view s.now).globals.stage)
        (view s.now).allocator bytes.now }
{
    let n = stop(s, rows::STARTED_UP);
    if n == 0 {
        return descriptor::preview::preview(state::load_allocator(s), bytes);
    }
    descriptor::preview::refused(n)
}
