ghost use Rattle.std.specs.Prelude.{◌≡◌, List, ℕ};
ghost use Rattle.state.specs.Driver.{Driver};
ghost use Rattle.machine.specs.Suspended.{answer_of};
ghost use Rattle.usbhs_c.specs.Stamp.{stamp_by};

use answer::Step;

// The stamp of a packet that is shown; no other answer has one, and what the caller had stays.
pub fn stamp_by(step: Step, old: u16) -> u16
    ensures { (b : List ℕ) (d : Driver) → result ≡ stamp_by (answer_of step b d) old }
{
    match step {
        Step::Shown(_at, _n, stamp) => stamp,
        _ => old,
    }
}
