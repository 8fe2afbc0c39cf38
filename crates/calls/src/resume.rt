// Continue: the operation under way goes on at its point, with the number brought. An interrupt answers its word.
ghost use Rattle.std.specs.Prelude.{◌≡◌, List, [], ℕ};
ghost use Rattle.state.specs.State.{view, saved};
ghost use Rattle.script.specs.Machine.{continue};
ghost use Rattle.script_ops.specs.Numbers as tags;
ghost use Rattle.machine.specs.Suspended.{machine_of, drive, answer_of, lent_or, BufferUnchangedOnRow1, SavedByAnswer};
ghost use Rattle.machine.specs.Stands.{Resumes};
ghost use Rattle.answer.specs.Parts.{step_of};
ghost use Rattle.machine.specs.Lifts.{PinsFrom};
ghost use Rattle.interrupt.specs.Stands.{ResumesByWord};

use answer::Step;
use answer::loads::site_byte;
use answer::word::ROW_1;
use interrupt::rest::{
    resume_check, resume_moved_read, resume_moved_wrote, resume_setup_released, resume_setup_rx,
    resume_setup_tx,
};
use interrupt::resume::{
    resume_bus_rst, resume_completing, resume_fifo, resume_flags, resume_flip, resume_flipped,
    resume_frame, resume_frame_no, resume_host, resume_late, resume_len, resume_mis, resume_nak,
    resume_released, resume_settle, resume_sof, resume_sof_arm, resume_st, resume_suspend,
    resume_toggled,
};
use interrupt::sites;
use machine::resume_op::{
    resume_advance, resume_bus, resume_control, resume_driver, resume_endpoint,
};
use machine::saved::tag;
use machine::stops::slots_fit;
use script_ops::{points, rows};
use state::State;

// Goes on at an interrupt's point: the one dispatch on what is saved. Each arm is a call and nothing after it, and
// answers its own word.
fn resume_interrupt(s: &mut State, slots: &mut [u8], v: u32) -> u64
    requires { (saved s.old).tag ≡ tags.INTERRUPT }
    ensures { ResumesByWord result v s.old slots.old s.new slots.new }
{
    let site = site_byte(s);
    match site {
        sites::FLAGS => resume_flags(s, v),
        sites::BUS_RST => resume_bus_rst(s),
        sites::SUSPEND => resume_suspend(s),
        sites::FIFO => resume_fifo(s),
        sites::HOST => resume_host(s),
        sites::MIS => resume_mis(s, v),
        sites::ST => resume_st(s, v),
        sites::LEN => resume_len(s, v),
        sites::NAK => resume_nak(s, v),
        sites::RELEASED => resume_released(s),
        sites::SETTLE => resume_settle(s, v),
        sites::FRAME_NO => resume_frame_no(s, slots, v),
        sites::SOF => resume_sof(s, slots, v),
        sites::LATE => resume_late(s, slots),
        sites::SOF_ARM => resume_sof_arm(s, slots, v),
        sites::FLIP => resume_flip(s, v),
        sites::FLIPPED => resume_flipped(s, slots),
        sites::TOGGLED => resume_toggled(s, slots, v),
        sites::COMPLETING => resume_completing(s, slots),
        sites::CHECK => resume_check(s, slots, v),
        sites::MOVED_READ => resume_moved_read(s, v),
        sites::MOVED_WROTE => resume_moved_wrote(s),
        sites::SETUP_RX => resume_setup_rx(s),
        sites::SETUP_TX => resume_setup_tx(s, slots),
        sites::SETUP_RELEASED => resume_setup_released(s),
        _ => resume_frame(s, v), // FRAME, or an unknown one
    }
}

// Goes on at any other operation's point.
fn resume_at(s: &mut State, slots: &mut [u8], v: u32) -> Step
    requires { (saved s.old).tag ≡ tags.INTERRUPT → ⊥ }
    ensures { Resumes result v s.old slots.old s.new slots.new }
{
    match tag(s) {
        points::DRIVER => resume_driver(s, v),
        points::BUS => resume_bus(s, slots, v),
        points::CONTROL => resume_control(s, v),
        points::ENDPOINT => resume_endpoint(s, v),
        points::ADVANCE => resume_advance(s, v),
        _ => Step::Refused(rows::NOT_BEGUN),
    }
}

// Goes on with the interrupt under way, with the number brought; the slots are as long as the driver's buffers.
pub fn interrupt(s: &mut State, slots: &mut [u8], v: u32) -> u64
    requires { (saved s.old).tag ≡ tags.INTERRUPT }
    ensures by_index { (a : List ℕ) → (
      answer_of (step_of result) [] (view s.new),
      machine_of s.new (lent_or (view s.old) slots.old slots.new a),
    ) ≡ drive (continue v) (machine_of s.old a) slots.old }
    ensures buffer_unchanged_on_row1 { BufferUnchangedOnRow1 (view s.old) slots.old slots.new }
    ensures pins_from { PinsFrom result s.old s.new }
{
    if slots_fit(s, slots) {
        return resume_interrupt(s, slots, v);
    }
    ROW_1 // whatever is saved
}

// Goes on with any other operation, or with none.
pub fn operation(s: &mut State, slots: &mut [u8], v: u32) -> Step
    requires { (saved s.old).tag ≡ tags.INTERRUPT → ⊥ }
    ensures by_index { (a : List ℕ) → (
      answer_of result [] (view s.new),
      machine_of s.new (lent_or (view s.old) slots.old slots.new a),
    ) ≡ drive (continue v) (machine_of s.old a) slots.old }
    ensures buffer_unchanged_on_row1 { BufferUnchangedOnRow1 (view s.old) slots.old slots.new }
    ensures saved_by_answer { SavedByAnswer result s.old s.new }
{
    if slots_fit(s, slots) {
        return resume_at(s, slots, v);
    }
    Step::Refused(rows::SLOTS_LENGTH)
}
