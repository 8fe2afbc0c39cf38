ghost use Rattle.std.specs.Prelude.{◌≡◌};
ghost use Rattle.state.specs.State.{view, saved};
ghost use Rattle.machine.specs.Suspended.{decode, slots_fit};
ghost use Rattle.machine.specs.Rows.{is_idle, stop_of};

use crate::saved::is_idle;
use script_ops::rows;
use state::State;

// Is the lent buffer as long as the driver's buffers? (row 1 turned round)
pub fn slots_fit(s: &State, slots: &[u8]) -> bool
    ensures { result ≡ slots_fit (view s.now) slots.now }
{
    let a = state::load_allocator(s);
    alloc::buffer::fits(slots.len() as u64, a.size as u32, a.count as u32)
}

// The row that stops a call which wants the driver at a stage (1 after start-up, 2 after EP0's start): 3, an operation
// is under way; 4, it is at another stage; 0, neither.
pub fn stop(s: &State, stage: u8) -> u8
    ensures { result ≡ stop_of (is_idle (decode (saved s.now))) stage
        (view s.now).globals.stage }
{
    if is_idle(s) {
        let g = state::load_globals(s);
        if g.stage == stage {
            return 0;
        }
        return rows::STAGE;
    }
    rows::UNDER_WAY
}
