ghost use Rattle.std.specs.Prelude.{◌≡◌, List, [], ℕ};
ghost use Rattle.state.specs.State.{view, saved};
ghost use Rattle.script.specs.Machine.{begin};
ghost use Rattle.script.specs.Calls.{other, interrupt, Microframe, SetPaced, Advance};
ghost use Rattle.machine.specs.Suspended.{machine_of, drive, answer_of, SavedByAnswer};
ghost use Rattle.machine.specs.CallContracts.{OtherCall};

use answer::Step;
use isochronous::advance;
use machine::halts::{suspend_interrupt, suspend_or_end, suspend_or_end_advance};
use machine::stops::stop;
use script_ops::rows;
use script_ops::rows::{is_number, low};
use state::State;

// The current microframe number (mod.rs 236-238).
pub fn begin_microframe(s: &mut State) -> Step
    ensures { OtherCall Microframe result s.old s.new }
{
    let n = stop(s, rows::STARTED);
    if n == 0 {
        state::clear_wakes(s);
        return suspend_or_end(s, driver::microframe());
    }
    Step::Refused(n)
}

// Whether advance moves the endpoint on (mod.rs 308-317).
pub fn set_paced(s: &mut State, e: u32, on: bool) -> Step
    ensures by_index { (a b : List ℕ) → (
      answer_of result [] (view s.new),
      machine_of s.new b,
    ) ≡ drive (begin (other (SetPaced e on))) (machine_of s.old a) b }
    ensures s_unchanged { saved s.new ≡ saved s.old }
{
    let n = stop(s, rows::STARTED);
    if n == 0 {
        if is_number(e) {
            driver::iso_in_set_paced(s, low(e), on);
            return Step::Ends(0, 0);
        }
        return Step::Refused(rows::NO_ENDPOINT);
    }
    Step::Refused(n)
}

// Begins `iso_in_advance` (mod.rs 323-340): completes a paced IN for the microframes that have passed.
pub fn begin_advance(s: &mut State, e: u32) -> Step
    ensures { OtherCall (Advance e) result s.old s.new }
{
    let n = stop(s, rows::STARTED);
    if n == 0 {
        if is_number(e) {
            state::clear_wakes(s);
            let x = advance::iso_in_advance(s, low(e));
            return suspend_or_end_advance(s, x);
        }
        return Step::Refused(rows::NO_ENDPOINT);
    }
    Step::Refused(n)
}

// Begins `on_interrupt` (mod.rs 634-852).
pub fn begin_interrupt(s: &mut State) -> Step
    ensures by_index { (a b : List ℕ) → (
      answer_of result [] (view s.new),
      machine_of s.new b,
    ) ≡ drive (begin interrupt) (machine_of s.old a) b }
    ensures saved_by_answer { SavedByAnswer result s.old s.new }
{
    let n = stop(s, rows::STARTED);
    if n == 0 {
        state::clear_wakes(s);
        return suspend_interrupt(s, interrupt::on_interrupt());
    }
    Step::Refused(n)
}
