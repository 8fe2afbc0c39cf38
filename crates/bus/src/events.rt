// The bus goes on (mod.rs 1187-1266): enable, poll with reset, suspend and resume, one access at a time. Every function
// is total: any number is safe.
ghost use Rattle.std.specs.Prelude.{◌≡◌, List, ℕ};
ghost use Rattle.state.specs.Driver.{Driver};
ghost use Rattle.script.specs.Script.{run};
ghost use Rattle.script.specs.Bus as script;
ghost use Rattle.script_ops.specs.Means.{Means};
ghost use Rattle.script_ops.specs.Concrete.{concrete};
ghost use Rattle.bus.specs.declared.Point.TheVariants as Point;
ghost use Rattle.bus.specs.Points.{resultless, denote, meaning, Linked, asked, Awaited};

use crate::Next;
use crate::points::{ENABLE, point};
use regs::{Access, Dir, Reg};

// Begins `Bus::enable` (mod.rs 1225-1227): reads ctrl, to set its pull-up.
pub fn enable() -> Next
    ensures { Means (meaning result) (Linked result) (run concrete (resultless script.enable)) }
{
    Next::Asks(
        Access::Read(Reg::Ctrl, 0),
        point(ENABLE, Dir::Out, false, false, 0, 0),
    )
}

// After ctrl was read: writes it with the pull-up set.
pub fn after_enable(v: u32) -> Access
    ensures b_value { (d : Driver) (b : List ℕ) → asked result (Point.Event 0) d b ≡ denote Point.Enable v (d, b) }
    ensures awaited { Awaited result (Point.Event 0) }
{
    Access::Write(Reg::Ctrl, 0, regs::ctrl::pulled_up(v))
}
