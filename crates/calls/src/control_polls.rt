// The polls of the control pipe's stages. Rows 4, 15, 10 and 9 are `control`'s.
ghost use Rattle.std.specs.Prelude.{length};
ghost use Rattle.script.specs.Calls.{PollSetup, PollDataOut, PollDataIn, PollAccept};
ghost use Rattle.machine.specs.CallContracts.{OtherCall, PolledCall};

use answer::Step;
use machine::halts::polled_control;
use machine::saved::is_idle;
use machine::stops::slots_fit;
use script_ops::rows;
use state::State;

// Polls `setup` (control.rs 70-80): gives the setup packet once it is there.
pub fn poll_setup(s: &mut State) -> Step
    ensures { OtherCall PollSetup result s.old s.new }
{
    if is_idle(s) {
        let x = control::poll_setup(s);
        return polled_control(s, x);
    }
    Step::Refused(rows::UNDER_WAY)
}

// `data_out` (82-115): the packet at the front of `out`.
pub fn poll_data_out(s: &mut State, slots: &[u8], out: &mut [u8]) -> Step
    ensures { PolledCall (PollDataOut (length out.old)) result s.old slots.now
        out.old s.new out.new }
{
    if slots_fit(s, slots) {
        if is_idle(s) {
            let x = control::poll_data_out(s, slots, out);
            return polled_control(s, x);
        }
        return Step::Refused(rows::UNDER_WAY);
    }
    Step::Refused(rows::SLOTS_LENGTH)
}

// Polls `data_in` (control.rs 117-161): done once the packet, and a last one's closing OUT, went through.
pub fn poll_data_in(s: &mut State) -> Step
    ensures { OtherCall PollDataIn result s.old s.new }
{
    if is_idle(s) {
        let x = control::poll_data_in(s);
        return polled_control(s, x);
    }
    Step::Refused(rows::UNDER_WAY)
}

// Polls `accept` and `accept_set_address` (control.rs 26-46): done once the status stage went through.
pub fn poll_accept(s: &mut State) -> Step
    ensures { OtherCall PollAccept result s.old s.new }
{
    if is_idle(s) {
        let x = control::poll_accept(s);
        return polled_control(s, x);
    }
    Step::Refused(rows::UNDER_WAY)
}
