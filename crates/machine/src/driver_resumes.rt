// Start-up (mod.rs 886-951), new endpoints (endpoint.rs 18-36), EP0's start (mod.rs 1144-1178) and the microframe go
// on: one function for each of their points, which loads its own parts and stores the next point's bytes.
ghost use Rattle.std.specs.Prelude.{◌≡◌, false, not, List, ℕ, ◌%◌, eqb};
ghost use Rattle.regs.specs.ControlWord.{word_of};
ghost use Rattle.script.specs.Statics.{is_on};
ghost use Rattle.script.specs.Script.{dma};
ghost use Rattle.script.specs.Machine.{nothing, awaited};
ghost use Rattle.script_ops.specs.Rings.{place_on};
ghost use Rattle.script_ops.specs.Concrete.{go};
ghost use Rattle.state.specs.State.{view, saved};
ghost use Rattle.driver.specs.declared.Point.TheVariants as Point;
ghost use Rattle.driver.specs.Announce.{announcing, following};
ghost use Rattle.machine.specs.declared.Suspended.TheVariants as Under;
ghost use Rattle.machine.specs.Suspended.{decode, Stored};
ghost use Rattle.script_ops.specs.Numbers as tags;
ghost use Rattle.driver.specs.Codec as at;
ghost use Rattle.machine.specs.Stands.{AtNumber, Resumes, StepsTo, halted};

use crate::driver_stands::{
    stand_ep0_max_len, stand_ep0_packet, stand_ep0_rx, stand_ep0_tx, stand_host, stand_int_en,
    stand_list_max_len, stand_list_place, stand_place, stand_reset, stand_reset_end, stand_run,
    stand_wait,
};
use crate::points_loads::{flag_dir_at, list_endpoint_at, on_at};
use crate::resume_op::half;
use crate::stands::stop;
use answer::Step;
use answer::loads::{ep_byte, st_byte, value_word};
use driver::announce::{end_of, found_at};
use frame::{Frame, microframe_index};
use regs::control_word::{DATA0, NAK, word_of};
use regs::int_en::at_start;
use regs::registers::fits;
use regs::{Access, Dir, Reg, ctrl};
use script_ops::records::place;
use script_ops::rows;
use state::{State, load_ep, set_int_en};

// EP0 answers NAK, from DATA0 on.
fn ep0_word() -> u32
    ensures { result ≡ word_of 2 0 false }
{
    word_of(NAK, DATA0, false) as u32
}

// A control endpoint has no buffer of its own.
fn has_buffer(kind: u8) -> bool
    ensures { result ≡ not (eqb (kind % 4) 0) }
{
    kind % 4 != 0
}

// An endpoint is told where its buffer lies.
fn place_access(s: &mut State, dir: Dir, ep: u8) -> Access
    ensures value { result ≡ dma dir ep (place_on dir ep (view s.old)).0 }
    ensures s_after { view s.new ≡ (place_on dir ep (view s.old)).1 }
    ensures result_value { awaited result ≡ nothing }
{
    let at = place(s, dir, ep);
    match dir {
        Dir::Out => Access::Receive(ep, at),
        Dir::In => Access::Transmit(ep, at),
    }
}

// A list's endpoint is announced: its maximum, as its record has it; its buffer, and those left, come after it.
fn announce(s: &mut State, left: u8, total: u8, dir: Dir, e: u8) -> Step
    ensures steps_to { StepsTo result s.new (λ b. halted
        (go (announcing left total dir e) (view s.old) b)) }
    ensures stored { Stored result s.new }
{
    let r = load_ep(s, dir, e);
    let q = Access::Write(Reg::EpMaxLen, e, r.max_len as u32);
    stand_list_max_len(s, q, dir, r.kind, e, left, total)
}

// The one whose buffers begin where those of the last end, as long as any is left.
fn announce_after(s: &mut State, left: u8, total: u8, dir: Dir, e: u8) -> Step
    ensures steps_to { StepsTo result s.new (λ b. halted
        (go (following left total dir e) (view s.old) b)) }
    ensures stored { Stored result s.new }
{
    if left == 0 {
        return stop(s, total as u16);
    }
    let x = end_of(s, dir, e);
    let o = found_at(s, Dir::Out, x);
    if o == 0 {
        let n = found_at(s, Dir::In, x);
        return announce(s, left - 1, total, Dir::In, n);
    }
    announce(s, left - 1, total, Dir::Out, o)
}

// Ctrl is cleared: start-up.
pub fn resume_clear(s: &mut State) -> Step
    requires { decode (saved s.old) ≡ Under.Driver (Point.Clear (is_on (saved s.old).flag)) }
    ensures { (v : ℕ) (b : List ℕ) → Resumes result v s.old b s.new b }
{
    let on = on_at(s);
    stand_wait(s, Access::Wait(10), on)
}

// The wait is over.
pub fn resume_wait(s: &mut State) -> Step
    requires { AtNumber tags.DRIVER at.WAIT s.old }
    ensures { (v : ℕ) (b : List ℕ) → Resumes result v s.old b s.new b }
{
    let on = on_at(s);
    stand_reset(s, Access::Read(Reg::Ctrl, 0), on)
}

// Ctrl is read.
pub fn resume_reset(s: &mut State, v: u32) -> Step
    requires { AtNumber tags.DRIVER at.RESET s.old }
    ensures { (b : List ℕ) → Resumes result v s.old b s.new b }
{
    if fits(v, 6) {
        let on = on_at(s);
        let w = ctrl::reset_ended(v);
        return stand_reset_end(s, Access::Write(Reg::Ctrl, 0, w), on);
    }
    Step::Refused(rows::READING)
}

// The reset is ended.
pub fn resume_reset_end(s: &mut State) -> Step
    requires { AtNumber tags.DRIVER at.RESET-END s.old }
    ensures { (v : ℕ) (b : List ℕ) → Resumes result v s.old b s.new b }
{
    let on = on_at(s);
    let w = ctrl::phy_suspendm();
    stand_host(s, Access::Write(Reg::HostCtrl, 0, w), on)
}

// Host_ctrl is written.
pub fn resume_host(s: &mut State) -> Step
    requires { AtNumber tags.DRIVER at.HOST s.old }
    ensures { (v : ℕ) (b : List ℕ) → Resumes result v s.old b s.new b }
{
    let on = on_at(s);
    let w = ctrl::run();
    stand_run(s, Access::Write(Reg::Ctrl, 0, w), on)
}

// Ctrl is: the interrupt enables are kept, then written.
pub fn resume_run(s: &mut State) -> Step
    requires { AtNumber tags.DRIVER at.RUN s.old }
    ensures { (v : ℕ) (b : List ℕ) → Resumes result v s.old b s.new b }
{
    let on = on_at(s);
    let enables = at_start(on);
    set_int_en(s, enables);
    stand_int_en(s, Access::Write(Reg::IntEn, 0, enables as u32))
}

// Int_en is.
pub fn resume_int_en(s: &mut State) -> Step
    requires { AtNumber tags.DRIVER at.INT-EN s.old }
    ensures { (v : ℕ) (b : List ℕ) → Resumes result v s.old b s.new b }
{
    stop(s, 0)
}

// A new endpoint's maximum is: its buffer's address, unless it is a control endpoint.
pub fn resume_max_len(s: &mut State) -> Step
    requires { AtNumber tags.DRIVER at.MAX-LEN s.old }
    ensures { (v : ℕ) (b : List ℕ) → Resumes result v s.old b s.new b }
{
    let ep = ep_byte(s);
    let kind = st_byte(s);
    if has_buffer(kind) {
        let dir = flag_dir_at(s);
        let q = place_access(s, dir, ep);
        return stand_place(s, q, ep);
    }
    stop(s, ep as u16)
}

// Its address is.
pub fn resume_place(s: &mut State) -> Step
    requires { AtNumber tags.DRIVER at.PLACE s.old }
    ensures { (v : ℕ) (b : List ℕ) → Resumes result v s.old b s.new b }
{
    let ep = ep_byte(s);
    stop(s, ep as u16)
}

// EP0's buffer is told: its start.
pub fn resume_ep0_place(s: &mut State) -> Step
    requires { AtNumber tags.DRIVER at.EP0-PLACE s.old }
    ensures { (v : ℕ) (b : List ℕ) → Resumes result v s.old b s.new b }
{
    let maximum = value_word(s);
    stand_ep0_max_len(s, Access::Write(Reg::EpMaxLen, 0, maximum))
}

// Its maximum is written.
pub fn resume_ep0_max_len(s: &mut State) -> Step
    requires { AtNumber tags.DRIVER at.EP0-MAX-LEN s.old }
    ensures { (v : ℕ) (b : List ℕ) → Resumes result v s.old b s.new b }
{
    let w = ep0_word();
    stand_ep0_rx(s, Access::Write(Reg::EpRxCtrl, 0, w))
}

// Its OUT answers NAK.
pub fn resume_ep0_rx(s: &mut State) -> Step
    requires { AtNumber tags.DRIVER at.EP0-RX s.old }
    ensures { (v : ℕ) (b : List ℕ) → Resumes result v s.old b s.new b }
{
    let w = ep0_word();
    stand_ep0_tx(s, Access::Write(Reg::EpTxCtrl, 0, w))
}

// Its IN does.
pub fn resume_ep0_tx(s: &mut State) -> Step
    requires { AtNumber tags.DRIVER at.EP0-TX s.old }
    ensures { (v : ℕ) (b : List ℕ) → Resumes result v s.old b s.new b }
{
    stand_ep0_packet(s, Access::Write(Reg::EpMaxLen, 0, 64))
}

// Its packet's maximum is written.
pub fn resume_ep0_packet(s: &mut State) -> Step
    requires { AtNumber tags.DRIVER at.EP0-PACKET s.old }
    ensures { (v : ℕ) (b : List ℕ) → Resumes result v s.old b s.new b }
{
    stop(s, 0)
}

// Frame_no is read: its index.
pub fn resume_frame_no(s: &mut State, v: u32) -> Step
    requires { AtNumber tags.DRIVER at.FRAME-NO s.old }
    ensures { (b : List ℕ) → Resumes result v s.old b s.new b }
{
    if fits(v, 16) {
        let i = microframe_index(Frame(half(v)));
        return stop(s, i.0);
    }
    Step::Refused(rows::READING)
}

// Of a list's endpoint the maximum is written: its address, or its successor.
pub fn resume_list_max_len(s: &mut State) -> Step
    requires { AtNumber tags.DRIVER at.LIST-MAX-LEN s.old }
    ensures { (v : ℕ) (b : List ℕ) → Resumes result v s.old b s.new b }
{
    let x = list_endpoint_at(s);
    let dir = x.dir;
    if has_buffer(x.kind) {
        let q = place_access(s, dir, x.ep);
        return stand_list_place(s, q, dir, x.ep, x.left, x.total);
    }
    announce_after(s, x.left, x.total, dir, x.ep)
}

// Its address is: its successor.
pub fn resume_list_place(s: &mut State) -> Step
    requires { AtNumber tags.DRIVER at.LIST-PLACE s.old }
    ensures { (v : ℕ) (b : List ℕ) → Resumes result v s.old b s.new b }
{
    let x = list_endpoint_at(s);
    let dir = x.dir;
    announce_after(s, x.left, x.total, dir, x.ep)
}
