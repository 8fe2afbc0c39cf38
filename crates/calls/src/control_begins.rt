// The begins of the control pipe's stages. Rows 4, 10 and 9 are `control`'s.
ghost use Rattle.script.specs.Calls.{BeginSetup, BeginDataOut, BeginDataIn, BeginAccept, BeginAcceptSetAddress};
ghost use Rattle.script.specs.Calls.{BeginReject};
ghost use Rattle.machine.specs.CallContracts.{OtherCall, SlottedCall};

use answer::Step;
use machine::halts::begun_control;
use machine::saved::is_idle;
use machine::stops::slots_fit;
use script_ops::rows;
use state::State;

// Begins `ControlPipe::setup` (control.rs 70-80): waits for a setup packet.
pub fn begin_setup(s: &mut State) -> Step
    ensures { OtherCall BeginSetup result s.old s.new }
{
    if is_idle(s) {
        let x = control::setup(s);
        return begun_control(s, x);
    }
    Step::Refused(rows::UNDER_WAY)
}

// `data_out` (82-115), into a slice of n bytes.
pub fn begin_data_out(s: &mut State, n: u32, first: bool) -> Step
    ensures { OtherCall (BeginDataOut n first) result s.old s.new }
{
    if is_idle(s) {
        let x = control::data_out(s, n, first);
        return begun_control(s, x);
    }
    Step::Refused(rows::UNDER_WAY)
}

// `data_in` (117-161).
pub fn begin_data_in(s: &mut State, slots: &mut [u8], bytes: &[u8], first: bool, last: bool) -> Step
    ensures { SlottedCall (BeginDataIn bytes.now first last) result s.old slots.old
        s.new slots.new }
{
    if slots_fit(s, slots) {
        if is_idle(s) {
            let x = control::data_in(s, slots, bytes, first, last);
            return begun_control(s, x);
        }
        return Step::Refused(rows::UNDER_WAY);
    }
    Step::Refused(rows::SLOTS_LENGTH)
}

// Begins `accept` (control.rs 26-46, 163-166): the status stage.
pub fn begin_accept(s: &mut State) -> Step
    ensures { OtherCall BeginAccept result s.old s.new }
{
    if is_idle(s) {
        let x = control::accept(s);
        return begun_control(s, x);
    }
    Step::Refused(rows::UNDER_WAY)
}

// Begins `accept_set_address` (control.rs 179-186): the status stage, then the address.
pub fn begin_accept_set_address(s: &mut State, address: u32) -> Step
    ensures { OtherCall (BeginAcceptSetAddress address) result s.old s.new }
{
    if is_idle(s) {
        let x = control::accept_set_address(s, address);
        return begun_control(s, x);
    }
    Step::Refused(rows::UNDER_WAY)
}

// Begins `reject` (control.rs 168-177): stalls EP0 in both directions.
pub fn begin_reject(s: &mut State) -> Step
    ensures { OtherCall BeginReject result s.old s.new }
{
    if is_idle(s) {
        let x = control::reject(s);
        return begun_control(s, x);
    }
    Step::Refused(rows::UNDER_WAY)
}
