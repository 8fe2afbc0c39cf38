// The interrupt (`on_interrupt`, mod.rs 634-852) goes on: one function for each point, in the Rust's order. Each tests
// its own reading's width (row 16) and loads its own point's parts.
ghost use Rattle.std.specs.Prelude.{◌≡◌, List, ℕ};
ghost use Rattle.state.specs.State.{saved};
ghost use Rattle.interrupt.specs.declared.Point.TheVariants as Point;
ghost use Rattle.interrupt.specs.Suspended as Under;
ghost use Rattle.interrupt.specs.Suspended.{decode};
ghost use Rattle.interrupt.specs.Codec as sites;
ghost use Rattle.interrupt.specs.Stands.{AtSite, ResumesByWord};

use crate::flags::{
    after_bus_rst, after_fifo, after_flags, after_frame, after_host, after_suspend,
};
use crate::framing::after_frame_no;
use crate::interrupt_entry::{
    after_len, after_mis, after_naking, after_released, after_settling, after_st,
};
use crate::loads::{
    busy_at, complete_at, dir_at, entry_at, late_at, nak_at, settle_at, setup_at, sof_at,
    toggled_at, transfer_at,
};
use crate::serving::{after_completions, after_on_sof};
use crate::tokens::{after_completing, after_flip, after_flipped, after_sof_arm, after_toggled};
use crate::{nak, settle, toggled};
use answer::loads::st_byte;
use answer::word::ROW_16;
use isochronous::sof;
use regs::registers::fits;
use state::State;

// ---- The microframe, then the flags but the setup's (mod.rs 634-655).

// frame_no, whose microframe index what the interrupt admits carries.
pub fn resume_frame(s: &mut State, v: u32) -> u64
    requires { decode (saved s.old) ≡ Under.Interrupt Point.Frame }
    ensures { (b : List ℕ) → ResumesByWord result v s.old b s.new b }
{
    if fits(v, 16) {
        return after_frame(s, v);
    }
    ROW_16
}

// int_fg (mod.rs 637).
pub fn resume_flags(s: &mut State, v: u32) -> u64
    requires { AtSite sites.FLAGS s.old }
    ensures { (b : List ℕ) → ResumesByWord result v s.old b s.new b }
{
    if fits(v, 6) {
        return after_flags(s, v);
    }
    ROW_16
}

// the reset interrupt is masked (mod.rs 640-643).
pub fn resume_bus_rst(s: &mut State) -> u64
    requires { AtSite sites.BUS-RST s.old }
    ensures { (v : ℕ) (b : List ℕ) → ResumesByWord result v s.old b s.new b }
{
    let f = st_byte(s);
    after_bus_rst(s, f)
}

// the suspend interrupt is (mod.rs 644-648).
pub fn resume_suspend(s: &mut State) -> u64
    requires { AtSite sites.SUSPEND s.old }
    ensures { (v : ℕ) (b : List ℕ) → ResumesByWord result v s.old b s.new b }
{
    let f = st_byte(s);
    after_suspend(s, f)
}

// the FIFO flag is cleared (mod.rs 649-651).
pub fn resume_fifo(s: &mut State) -> u64
    requires { AtSite sites.FIFO s.old }
    ensures { (v : ℕ) (b : List ℕ) → ResumesByWord result v s.old b s.new b }
{
    let f = st_byte(s);
    after_fifo(s, f)
}

// the host SOF flag is (mod.rs 652-655).
pub fn resume_host(s: &mut State) -> u64
    requires { AtSite sites.HOST s.old }
    ensures { (v : ℕ) (b : List ℕ) → ResumesByWord result v s.old b s.new b }
{
    let f = st_byte(s);
    after_host(s, f)
}

// ---- The transfer is entered, released, settled (mod.rs 656-722).

// mis_st: is a transaction on the bus? (mod.rs 656-661).
pub fn resume_mis(s: &mut State, v: u32) -> u64
    requires { AtSite sites.MIS s.old }
    ensures { (b : List ℕ) → ResumesByWord result v s.old b s.new b }
{
    if fits(v, 2) {
        let setup = setup_at(s);
        return after_mis(s, setup, v);
    }
    ROW_16
}

// int_st.
pub fn resume_st(s: &mut State, v: u32) -> u64
    requires { AtSite sites.ST s.old }
    ensures { (b : List ℕ) → ResumesByWord result v s.old b s.new b }
{
    if fits(v, 7) {
        let setup = setup_at(s);
        let busy = busy_at(s);
        return after_st(s, setup, busy, v);
    }
    ROW_16
}

// rx_len.
pub fn resume_len(s: &mut State, v: u32) -> u64
    requires { AtSite sites.LEN s.old }
    ensures { (b : List ℕ) → ResumesByWord result v s.old b s.new b }
{
    if fits(v, 16) {
        let setup = setup_at(s);
        let busy = busy_at(s);
        let st = st_byte(s);
        return after_len(s, setup, busy, st, v);
    }
    ROW_16
}

// NAK before the release (mod.rs 663).
pub fn resume_nak(s: &mut State, v: u32) -> u64
    requires { AtSite sites.NAK s.old }
    ensures { (b : List ℕ) → ResumesByWord result v s.old b s.new b }
{
    let q = nak_at(s);
    if nak::fits_at(q, v) {
        let setup = setup_at(s);
        let x = transfer_at(s);
        return after_naking(s, setup, x, q, v);
    }
    ROW_16
}

// the transfer flag is cleared (mod.rs 666-667).
pub fn resume_released(s: &mut State) -> u64
    requires { AtSite sites.RELEASED s.old }
    ensures { (v : ℕ) (b : List ℕ) → ResumesByWord result v s.old b s.new b }
{
    let setup = setup_at(s);
    let x = transfer_at(s);
    after_released(s, setup, x)
}

// what was on the bus is waited for (mod.rs 668-717).
pub fn resume_settle(s: &mut State, v: u32) -> u64
    requires { AtSite sites.SETTLE s.old }
    ensures { (b : List ℕ) → ResumesByWord result v s.old b s.new b }
{
    let q = settle_at(s);
    if settle::fits_at(q, v) {
        let setup = setup_at(s);
        let x = transfer_at(s);
        return after_settling(s, setup, x, q, v);
    }
    ROW_16
}

// ---- The frame, the microframe's SOF, a late entry's completions (mod.rs 724-747).

// frame_no (mod.rs 724-728).
pub fn resume_frame_no(s: &mut State, slots: &mut [u8], v: u32) -> u64
    requires { AtSite sites.FRAME-NO s.old }
    ensures { ResumesByWord result v s.old slots.old s.new slots.new }
{
    if fits(v, 16) {
        let e = entry_at(s);
        return after_frame_no(s, slots, e, v);
    }
    ROW_16
}

// a SOF that was not handled (mod.rs 729-733).
pub fn resume_sof(s: &mut State, slots: &mut [u8], v: u32) -> u64
    requires { AtSite sites.SOF s.old }
    ensures { ResumesByWord result v s.old slots.old s.new slots.new }
{
    let q = sof_at(s);
    if sof::fits_at(q, v) {
        let e = entry_at(s);
        return after_on_sof(s, slots, e, q, v);
    }
    ROW_16
}

// a late entry's completions (mod.rs 735-747).
pub fn resume_late(s: &mut State, slots: &mut [u8]) -> u64
    requires { AtSite sites.LATE s.old }
    ensures { (v : ℕ) → ResumesByWord result v s.old slots.old s.new
        slots.new }
{
    let e = entry_at(s);
    let q = late_at(s);
    after_completions(s, slots, e, q)
}

// ---- What a token completes (mod.rs 748-790).

// the arm of SOF (mod.rs 750-754).
pub fn resume_sof_arm(s: &mut State, slots: &mut [u8], v: u32) -> u64
    requires { AtSite sites.SOF-ARM s.old }
    ensures { ResumesByWord result v s.old slots.old s.new slots.new }
{
    let q = sof_at(s);
    if sof::fits_at(q, v) {
        let e = entry_at(s);
        return after_sof_arm(s, slots, e, q, v);
    }
    ROW_16
}

// EP0's control word (mod.rs 757, 781).
pub fn resume_flip(s: &mut State, v: u32) -> u64
    requires { AtSite sites.FLIP s.old }
    ensures { (b : List ℕ) → ResumesByWord result v s.old b s.new b }
{
    if fits(v, 8) {
        let d = dir_at(s);
        let e = entry_at(s);
        return after_flip(s, d, e, v);
    }
    ROW_16
}

// its toggle is flipped.
pub fn resume_flipped(s: &mut State, slots: &mut [u8]) -> u64
    requires { AtSite sites.FLIPPED s.old }
    ensures { (v : ℕ) → ResumesByWord result v s.old slots.old s.new
        slots.new }
{
    let d = dir_at(s);
    let e = entry_at(s);
    after_flipped(s, slots, d, e)
}

// did a packet go through? (`toggled`).
pub fn resume_toggled(s: &mut State, slots: &mut [u8], v: u32) -> u64
    requires { AtSite sites.TOGGLED s.old }
    ensures { ResumesByWord result v s.old slots.old s.new slots.new }
{
    let q = toggled_at(s);
    if toggled::fits_at(q, v) {
        let d = dir_at(s);
        let e = entry_at(s);
        return after_toggled(s, slots, d, e, q, v);
    }
    ROW_16
}

// an isochronous IN completes (mod.rs 772-777).
pub fn resume_completing(s: &mut State, slots: &mut [u8]) -> u64
    requires { AtSite sites.COMPLETING s.old }
    ensures { (v : ℕ) → ResumesByWord result v s.old slots.old s.new
        slots.new }
{
    let e = entry_at(s);
    let q = complete_at(s);
    after_completing(s, slots, e, q)
}
