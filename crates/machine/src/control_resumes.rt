// The control pipe goes on (control.rs 26-186): one function for each of its points, which loads its own parts and
// stores the next point's bytes.
ghost use Rattle.std.specs.Prelude.{◌≡◌, List, ℕ};
ghost use Rattle.state.specs.State.{saved};
ghost use Rattle.control.specs.declared.Point.TheVariants as Point;
ghost use Rattle.machine.specs.declared.Suspended.TheVariants as Under;
ghost use Rattle.machine.specs.Suspended.{decode};
ghost use Rattle.script_ops.specs.Numbers as tags;
ghost use Rattle.control.specs.Codec as at;
ghost use Rattle.machine.specs.Stands.{AtNumber, Resumes};

use crate::control_stands::{
    stand_ack_in, stand_loaded, stand_stall_out, stand_stalled_in, stand_status, stand_wrote,
};
use crate::points_loads::{dir_at, on_at};
use crate::stands::stop;
use answer::Step;
use answer::loads::len_word;
use endpoint::common::{byte, set_armed};
use regs::control_word::{ACK, DATA1, ack, stall, status, word_of};
use regs::registers::{ctrl_of, fits};
use regs::{Access, Dir, Reg};
use script_ops::rows;
use state::State;

// The last write is made.
pub fn resume_wrote(s: &mut State) -> Step
    requires { decode (saved s.old) ≡ Under.Control Point.Wrote }
    ensures { (v : ℕ) (b : List ℕ) → Resumes result v s.old b s.new b }
{
    stop(s, 0)
}

// A control word is read, to answer ACK.
pub fn resume_ack(s: &mut State, v: u32) -> Step
    requires { AtNumber tags.CONTROL at.ACK s.old }
    ensures { (b : List ℕ) → Resumes result v s.old b s.new b }
{
    if fits(v, 8) {
        let d = dir_at(s);
        let w = ack(byte(v));
        let reg = ctrl_of(d);
        return stand_wrote(s, Access::Write(reg, 0, w as u32));
    }
    Step::Refused(rows::READING)
}

// Ep_t_len is 0: the status stage.
pub fn resume_status_len(s: &mut State) -> Step
    requires { AtNumber tags.CONTROL at.STATUS-LEN s.old }
    ensures { (v : ℕ) (b : List ℕ) → Resumes result v s.old b s.new b }
{
    stand_status(s, Access::Read(Reg::EpTxCtrl, 0))
}

// EP0's IN is read.
pub fn resume_status(s: &mut State, v: u32) -> Step
    requires { AtNumber tags.CONTROL at.STATUS s.old }
    ensures { (b : List ℕ) → Resumes result v s.old b s.new b }
{
    if fits(v, 8) {
        let w = status(byte(v));
        return stand_wrote(s, Access::Write(Reg::EpTxCtrl, 0, w as u32));
    }
    Step::Refused(rows::READING)
}

// It is read, to be stalled.
pub fn resume_stall_in(s: &mut State, v: u32) -> Step
    requires { AtNumber tags.CONTROL at.STALL-IN s.old }
    ensures { (b : List ℕ) → Resumes result v s.old b s.new b }
{
    if fits(v, 8) {
        let w = stall(byte(v));
        return stand_stalled_in(s, Access::Write(Reg::EpTxCtrl, 0, w as u32));
    }
    Step::Refused(rows::READING)
}

// It is stalled.
pub fn resume_stalled_in(s: &mut State) -> Step
    requires { AtNumber tags.CONTROL at.STALLED-IN s.old }
    ensures { (v : ℕ) (b : List ℕ) → Resumes result v s.old b s.new b }
{
    stand_stall_out(s, Access::Read(Reg::EpRxCtrl, 0))
}

// EP0's OUT is read, to be stalled.
pub fn resume_stall_out(s: &mut State, v: u32) -> Step
    requires { AtNumber tags.CONTROL at.STALL-OUT s.old }
    ensures { (b : List ℕ) → Resumes result v s.old b s.new b }
{
    if fits(v, 8) {
        let w = stall(byte(v));
        return stand_wrote(s, Access::Write(Reg::EpRxCtrl, 0, w as u32));
    }
    Step::Refused(rows::READING)
}

// The closing OUT is armed; the packet is loaded.
pub fn resume_closing(s: &mut State) -> Step
    requires { AtNumber tags.CONTROL at.CLOSING s.old }
    ensures { (v : ℕ) (b : List ℕ) → Resumes result v s.old b s.new b }
{
    let n = len_word(s);
    let first = on_at(s);
    set_armed(s, Dir::In, 0, 1);
    stand_loaded(s, Access::Write(Reg::EpTLen, 0, n as u32), first)
}

// Ep_t_len is written: the first packet of a stage is DATA1; else the word is read.
pub fn resume_loaded(s: &mut State) -> Step
    requires { AtNumber tags.CONTROL at.LOADED s.old }
    ensures { (v : ℕ) (b : List ℕ) → Resumes result v s.old b s.new b }
{
    let first = on_at(s);
    if first {
        let w = word_of(ACK, DATA1, false);
        return stand_wrote(s, Access::Write(Reg::EpTxCtrl, 0, w as u32));
    }
    stand_ack_in(s, Access::Read(Reg::EpTxCtrl, 0))
}
