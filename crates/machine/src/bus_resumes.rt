// The bus goes on (mod.rs 1053-1106, 1187-1330): one function for each of its points, which loads its own parts and
// stores the next point's bytes.
ghost use Rattle.std.specs.Prelude.{◌≡◌, List, ℕ};
ghost use Rattle.state.specs.State.{saved};
ghost use Rattle.bus.specs.declared.Point.TheVariants as Point;
ghost use Rattle.machine.specs.declared.Suspended.TheVariants as Under;
ghost use Rattle.machine.specs.Suspended.{decode};
ghost use Rattle.script_ops.specs.Numbers as tags;
ghost use Rattle.bus.specs.Codec as at;
ghost use Rattle.machine.specs.Stands.{AtNumber, Resumes};

use crate::bus_stands::{
    stand_address, stand_disabled, stand_ep0_out, stand_event, stand_nak_in, stand_naked,
    stand_no_length, stand_released, stand_reset, stand_single, stand_stall_word, stand_status,
    stand_switch, stand_typed, stand_untyped, stand_woken, stand_words,
};
use crate::points_loads::{dir_at, iso_at, on_at};
use crate::stands::stop;
use answer::Step;
use answer::loads::{ep_byte, st_byte};
use bus::byte;
use bus::event::{
    after_address, after_disabled, after_ep0_out, after_last, after_nak_in, after_naked,
    after_released, after_reset, after_single, after_untyped,
};
use bus::events::after_enable;
use bus::iso_out_enable::after_switch;
use bus::set_enabled::{
    after_no_length, after_placed_in, after_placed_out, after_type, after_words,
};
use bus::set_stalled::{after_restart, after_stall_len, after_stall_word, after_stalled};
use regs::registers::fits;
use regs::{Access, Dir, Reg, flags, mis_status};
use script_ops::records::wake;
use script_ops::rows;
use state::State;

// Ctrl is read.
pub fn resume_enable(s: &mut State, v: u32) -> Step
    requires { decode (saved s.old) ≡ Under.Bus Point.Enable }
    ensures { (b : List ℕ) → Resumes result v s.old b s.new b }
{
    if fits(v, 6) {
        let q = after_enable(v);
        return stand_event(s, q, 0);
    }
    Step::Refused(rows::READING)
}

// The last access is made.
pub fn resume_event(s: &mut State) -> Step
    requires { AtNumber tags.BUS at.EVENT s.old }
    ensures { (v : ℕ) (b : List ℕ) → Resumes result v s.old b s.new b }
{
    let n = st_byte(s);
    stop(s, n as u16)
}

// A control word is read, to be asked.
pub fn resume_stalled(s: &mut State, v: u32) -> Step
    requires { AtNumber tags.BUS at.STALLED s.old }
    ensures { (b : List ℕ) → Resumes result v s.old b s.new b }
{
    if fits(v, 8) {
        let n = after_stalled(v);
        return stop(s, n);
    }
    Step::Refused(rows::READING)
}

// Ep_t_len is 0.
pub fn resume_stall_len(s: &mut State) -> Step
    requires { AtNumber tags.BUS at.STALL-LEN s.old }
    ensures { (v : ℕ) (b : List ℕ) → Resumes result v s.old b s.new b }
{
    let e = ep_byte(s);
    let q = after_stall_len(e);
    stand_stall_word(s, q, Dir::In, e)
}

// A control word is read, to be stalled.
pub fn resume_stall_word(s: &mut State, v: u32) -> Step
    requires { AtNumber tags.BUS at.STALL-WORD s.old }
    ensures { (b : List ℕ) → Resumes result v s.old b s.new b }
{
    if fits(v, 8) {
        let d = dir_at(s);
        let e = ep_byte(s);
        let q = after_stall_word(d, e, v);
        return stand_woken(s, q, d, e);
    }
    Step::Refused(rows::READING)
}

// An IN's control word is restarted.
pub fn resume_restarted(s: &mut State) -> Step
    requires { AtNumber tags.BUS at.RESTARTED s.old }
    ensures { (v : ℕ) (b : List ℕ) → Resumes result v s.old b s.new b }
{
    let e = ep_byte(s);
    let iso = iso_at(s);
    after_restart(s, e, iso);
    stop(s, 0)
}

// The last access is made; the endpoint is woken.
pub fn resume_woken(s: &mut State) -> Step
    requires { AtNumber tags.BUS at.WOKEN s.old }
    ensures { (v : ℕ) (b : List ℕ) → Resumes result v s.old b s.new b }
{
    let d = dir_at(s);
    let e = ep_byte(s);
    wake(s, d, e);
    stop(s, 0)
}

// Int_fg is read: `poll` (mod.rs 1231-1266).
pub fn resume_flags(s: &mut State, v: u32) -> Step
    requires { AtNumber tags.BUS at.FLAGS s.old }
    ensures { (b : List ℕ) → Resumes result v s.old b s.new b }
{
    if fits(v, 6) {
        let word = byte(v);
        if flags::bus_rst(word) {
            return stand_address(s, Access::Write(Reg::DevAd, 0, 0));
        }
        if flags::suspend(word) {
            return stand_status(s, Access::Read(Reg::MisSt, 0));
        }
        return stop(s, 0);
    }
    Step::Refused(rows::READING)
}

// Mis_st is read.
pub fn resume_status(s: &mut State, v: u32) -> Step
    requires { AtNumber tags.BUS at.STATUS s.old }
    ensures { (b : List ℕ) → Resumes result v s.old b s.new b }
{
    if fits(v, 2) {
        let down = mis_status::suspended(byte(v));
        return stand_released(s, Access::Write(Reg::IntFg, 0, flags::SUSPEND), down);
    }
    Step::Refused(rows::READING)
}

// The suspend flag is cleared.
pub fn resume_released(s: &mut State) -> Step
    requires { AtNumber tags.BUS at.RELEASED s.old }
    ensures { (v : ℕ) (b : List ℕ) → Resumes result v s.old b s.new b }
{
    let down = iso_at(s);
    let q = after_released(s);
    if down {
        return stand_event(s, q, 3);
    }
    stand_event(s, q, 4)
}

// Dev_ad is 0: `bus_reset` (mod.rs 1187-1221).
pub fn resume_address(s: &mut State) -> Step
    requires { AtNumber tags.BUS at.ADDRESS s.old }
    ensures { (v : ℕ) (b : List ℕ) → Resumes result v s.old b s.new b }
{
    let q = after_address();
    stand_ep0_out(s, q)
}

// EP0's OUT answers ACK.
pub fn resume_ep0_out(s: &mut State) -> Step
    requires { AtNumber tags.BUS at.EP0-OUT s.old }
    ensures { (v : ℕ) (b : List ℕ) → Resumes result v s.old b s.new b }
{
    let q = after_ep0_out();
    stand_naked(s, q, 0)
}

// IN e answers NAK.
pub fn resume_nak_in(s: &mut State) -> Step
    requires { AtNumber tags.BUS at.NAK-IN s.old }
    ensures { (v : ℕ) (b : List ℕ) → Resumes result v s.old b s.new b }
{
    let e = ep_byte(s);
    let q = after_nak_in(e);
    stand_naked(s, q, e)
}

// Endpoint e answers NAK.
pub fn resume_naked(s: &mut State) -> Step
    requires { AtNumber tags.BUS at.NAKED s.old }
    ensures { (v : ℕ) (b : List ℕ) → Resumes result v s.old b s.new b }
{
    let e = ep_byte(s);
    if e < 15 {
        let q = after_naked(e);
        return stand_nak_in(s, q, e + 1);
    }
    let q = after_last(s);
    stand_disabled(s, q)
}

// Ep_config is 0.
pub fn resume_disabled(s: &mut State) -> Step
    requires { AtNumber tags.BUS at.DISABLED s.old }
    ensures { (v : ℕ) (b : List ℕ) → Resumes result v s.old b s.new b }
{
    let q = after_disabled(s);
    stand_untyped(s, q)
}

// Ep_type is.
pub fn resume_untyped(s: &mut State) -> Step
    requires { AtNumber tags.BUS at.UNTYPED s.old }
    ensures { (v : ℕ) (b : List ℕ) → Resumes result v s.old b s.new b }
{
    let q = after_untyped();
    stand_single(s, q)
}

// Ep_buf_mod is.
pub fn resume_single(s: &mut State) -> Step
    requires { AtNumber tags.BUS at.SINGLE s.old }
    ensures { (v : ℕ) (b : List ℕ) → Resumes result v s.old b s.new b }
{
    let q = after_single(s);
    stand_reset(s, q)
}

// The reset flag is cleared.
pub fn resume_reset(s: &mut State) -> Step
    requires { AtNumber tags.BUS at.RESET s.old }
    ensures { (v : ℕ) (b : List ℕ) → Resumes result v s.old b s.new b }
{
    let q = after_reset(s);
    stand_event(s, q, 2)
}

// An OUT's address is set: `endpoint_set_enabled` (mod.rs 1268-1330).
pub fn resume_placed_out(s: &mut State) -> Step
    requires { AtNumber tags.BUS at.PLACED-OUT s.old }
    ensures { (v : ℕ) (b : List ℕ) → Resumes result v s.old b s.new b }
{
    let e = ep_byte(s);
    let on = on_at(s);
    let q = after_placed_out(e, on);
    stand_words(s, q, Dir::Out, e, false, on)
}

// An IN's.
pub fn resume_placed_in(s: &mut State) -> Step
    requires { AtNumber tags.BUS at.PLACED-IN s.old }
    ensures { (v : ℕ) (b : List ℕ) → Resumes result v s.old b s.new b }
{
    let e = ep_byte(s);
    let iso = iso_at(s);
    let on = on_at(s);
    let q = after_placed_in(e);
    stand_no_length(s, q, e, iso, on)
}

// Ep_t_len is 0.
pub fn resume_no_length(s: &mut State) -> Step
    requires { AtNumber tags.BUS at.NO-LENGTH s.old }
    ensures { (v : ℕ) (b : List ℕ) → Resumes result v s.old b s.new b }
{
    let e = ep_byte(s);
    let iso = iso_at(s);
    let on = on_at(s);
    let q = after_no_length(e, iso, on);
    stand_words(s, q, Dir::In, e, iso, on)
}

// The control word is set.
pub fn resume_words(s: &mut State) -> Step
    requires { AtNumber tags.BUS at.WORDS s.old }
    ensures { (v : ℕ) (b : List ℕ) → Resumes result v s.old b s.new b }
{
    let d = dir_at(s);
    let e = ep_byte(s);
    let iso = iso_at(s);
    let on = on_at(s);
    let q = after_words(s, d, e, iso, on);
    stand_typed(s, q, d, e, on)
}

// Ep_type is set.
pub fn resume_typed(s: &mut State) -> Step
    requires { AtNumber tags.BUS at.TYPE s.old }
    ensures { (v : ℕ) (b : List ℕ) → Resumes result v s.old b s.new b }
{
    let d = dir_at(s);
    let e = ep_byte(s);
    let on = on_at(s);
    let q = after_type(s, d, e, on);
    stand_woken(s, q, d, e)
}

// In the row of an isochronous OUT.
pub fn resume_switch(s: &mut State, slots: &mut [u8]) -> Step
    requires { AtNumber tags.BUS at.SWITCH s.old }
    ensures { (v : ℕ) → Resumes result v s.old slots.old s.new
        slots.new }
{
    let e = ep_byte(s);
    let on = on_at(s);
    let n = st_byte(s);
    if n == 0 {
        wake(s, Dir::Out, e);
        return stop(s, 0);
    }
    let q = after_switch(s, slots, e, on, n);
    stand_switch(s, q, e, on, n - 1)
}
