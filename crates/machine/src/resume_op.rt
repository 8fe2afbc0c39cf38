// An operation under way goes on at its point, with the number brought: the driver's, the bus's, the control pipe's, a
// read's or write's, a paced advance's.
// One dispatch on the point's number reaches its function.
ghost use Rattle.std.specs.Prelude.{◌≡◌, true, List, ℕ};
ghost use Rattle.regs.specs.Registers.{fits_in};
ghost use Rattle.state.specs.State.{saved};
ghost use Rattle.script_ops.specs.Numbers as tags;
ghost use Rattle.machine.specs.Stands.{Resumes};

use crate::{advance_resumes, bus_resumes, control_resumes, driver_resumes, endpoint_resumes};
use answer::Step;
use answer::loads::sub_byte;
use state::State;

// Goes on at the driver's own point.
pub fn resume_driver(s: &mut State, v: u32) -> Step
    requires { (saved s.old).tag ≡ tags.DRIVER }
    ensures { (b : List ℕ) → Resumes result v s.old b s.new b }
{
    let k = sub_byte(s);
    match k {
        driver::points::WAIT => driver_resumes::resume_wait(s),
        driver::points::RESET => driver_resumes::resume_reset(s, v),
        driver::points::RESET_END => driver_resumes::resume_reset_end(s),
        driver::points::HOST => driver_resumes::resume_host(s),
        driver::points::RUN => driver_resumes::resume_run(s),
        driver::points::INT_EN => driver_resumes::resume_int_en(s),
        driver::points::MAX_LEN => driver_resumes::resume_max_len(s),
        driver::points::PLACE => driver_resumes::resume_place(s),
        driver::points::EP0_PLACE => driver_resumes::resume_ep0_place(s),
        driver::points::EP0_MAX_LEN => driver_resumes::resume_ep0_max_len(s),
        driver::points::EP0_RX => driver_resumes::resume_ep0_rx(s),
        driver::points::EP0_TX => driver_resumes::resume_ep0_tx(s),
        driver::points::EP0_PACKET => driver_resumes::resume_ep0_packet(s),
        driver::points::FRAME_NO => driver_resumes::resume_frame_no(s, v),
        driver::points::LIST_MAX_LEN => driver_resumes::resume_list_max_len(s),
        driver::points::LIST_PLACE => driver_resumes::resume_list_place(s),
        _ => driver_resumes::resume_clear(s), // CLEAR, or an unknown one
    }
}

// At the bus's.
pub fn resume_bus(s: &mut State, slots: &mut [u8], v: u32) -> Step
    requires { (saved s.old).tag ≡ tags.BUS }
    ensures { Resumes result v s.old slots.old s.new slots.new }
{
    let k = sub_byte(s);
    match k {
        bus::points::EVENT => bus_resumes::resume_event(s),
        bus::points::STALLED => bus_resumes::resume_stalled(s, v),
        bus::points::STALL_LEN => bus_resumes::resume_stall_len(s),
        bus::points::STALL_WORD => bus_resumes::resume_stall_word(s, v),
        bus::points::RESTARTED => bus_resumes::resume_restarted(s),
        bus::points::WOKEN => bus_resumes::resume_woken(s),
        bus::points::FLAGS => bus_resumes::resume_flags(s, v),
        bus::points::STATUS => bus_resumes::resume_status(s, v),
        bus::points::RELEASED => bus_resumes::resume_released(s),
        bus::points::ADDRESS => bus_resumes::resume_address(s),
        bus::points::EP0_OUT => bus_resumes::resume_ep0_out(s),
        bus::points::NAK_IN => bus_resumes::resume_nak_in(s),
        bus::points::NAKED => bus_resumes::resume_naked(s),
        bus::points::DISABLED => bus_resumes::resume_disabled(s),
        bus::points::UNTYPED => bus_resumes::resume_untyped(s),
        bus::points::SINGLE => bus_resumes::resume_single(s),
        bus::points::RESET => bus_resumes::resume_reset(s),
        bus::points::PLACED_OUT => bus_resumes::resume_placed_out(s),
        bus::points::PLACED_IN => bus_resumes::resume_placed_in(s),
        bus::points::NO_LENGTH => bus_resumes::resume_no_length(s),
        bus::points::WORDS => bus_resumes::resume_words(s),
        bus::points::TYPE => bus_resumes::resume_typed(s),
        bus::points::SWITCH => bus_resumes::resume_switch(s, slots),
        _ => bus_resumes::resume_enable(s, v), // ENABLE, or an unknown one
    }
}

// At the control pipe's.
pub fn resume_control(s: &mut State, v: u32) -> Step
    requires { (saved s.old).tag ≡ tags.CONTROL }
    ensures { (b : List ℕ) → Resumes result v s.old b s.new b }
{
    let k = sub_byte(s);
    match k {
        control::points::ACK => control_resumes::resume_ack(s, v),
        control::points::STATUS_LEN => control_resumes::resume_status_len(s),
        control::points::STATUS => control_resumes::resume_status(s, v),
        control::points::STALL_IN => control_resumes::resume_stall_in(s, v),
        control::points::STALLED_IN => control_resumes::resume_stalled_in(s),
        control::points::STALL_OUT => control_resumes::resume_stall_out(s, v),
        control::points::CLOSING => control_resumes::resume_closing(s),
        control::points::LOADED => control_resumes::resume_loaded(s),
        _ => control_resumes::resume_wrote(s), // WROTE, or an unknown one
    }
}

// At a read's or write's.
pub fn resume_endpoint(s: &mut State, v: u32) -> Step
    requires { (saved s.old).tag ≡ tags.ENDPOINT }
    ensures { (b : List ℕ) → Resumes result v s.old b s.new b }
{
    let k = sub_byte(s);
    match k {
        endpoint::points::ACK => endpoint_resumes::resume_ack(s, v),
        endpoint::points::LOADED => endpoint_resumes::resume_loaded(s),
        _ => endpoint_resumes::resume_wrote(s), // WROTE, or an unknown one
    }
}

// At a paced advance's.
pub fn resume_advance(s: &mut State, v: u32) -> Step
    requires { (saved s.old).tag ≡ tags.ADVANCE }
    ensures { (b : List ℕ) → Resumes result v s.old b s.new b }
{
    let k = sub_byte(s);
    match k {
        isochronous::points::SENT => advance_resumes::resume_sent(s),
        isochronous::points::LOADED => advance_resumes::resume_loaded(s),
        _ => advance_resumes::resume_frame_no(s, v), // FRAME_NO, or an unknown one
    }
}

// A reading of 16 bits.
pub(crate) fn half(v: u32) -> u16
    requires { fits_in v 16 ≡ true }
    ensures { result ≡ v }
{
    v as u16
}
