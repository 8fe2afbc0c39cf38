// A paced advance goes on (mod.rs 323-340, 405-414): one function for each of its points, which loads its own parts and
// stores the next point's bytes.
ghost use Rattle.std.specs.Prelude.{◌≡◌, List, ℕ};
ghost use Rattle.state.specs.State.{view, saved};
ghost use Rattle.isochronous.specs.declared.advance.Advance.TheVariants as Point;
ghost use Rattle.isochronous.specs.Advance.{completing};
ghost use Rattle.machine.specs.declared.Suspended.TheVariants as Under;
ghost use Rattle.machine.specs.Suspended.{decode, Stored};
ghost use Rattle.script_ops.specs.Numbers as tags;
ghost use Rattle.isochronous.specs.Codec as at;
ghost use Rattle.machine.specs.Stands.{AtNumber, Resumes, StepsTo, halted};

use crate::advance_stands::{stand_loaded, stand_sent};
use crate::points_loads::completion_at;
use crate::resume_op::half;
use crate::stands::stop;
use answer::Step;
use answer::loads::ep_byte;
use frame::{Frame, completions, frame_of_index, microframe_index};
use isochronous::complete::{Complete, start};
use regs::registers::fits;
use regs::{Access, Dir, Reg};
use script_ops::records::wake;
use script_ops::rings::next_len;
use script_ops::rows;
use state::{State, load_paced, store_paced};

// The next completion; after the last, the microframe is kept.
fn iso_in_advance_resume(s: &mut State, e: u8, left: u8, frame: u16) -> Step
    ensures steps_to { StepsTo result s.new (λ b. halted (completing e left frame (view s.old, b))) }
    ensures stored { Stored result s.new }
{
    if left == 0 {
        store_paced(s, e, frame);
        return stop(s, 0);
    }
    let more = left - 1;
    let x = start(s, e);
    let q = x.access;
    let p = x.point;
    match p {
        Complete::Sent(of) => stand_sent(s, q, e, more, frame, of),
        Complete::Loaded(of) => stand_loaded(s, q, e, more, frame, of),
    }
}

// Frame_no is read: so many completions are due.
pub fn resume_frame_no(s: &mut State, v: u32) -> Step
    requires { decode (saved s.old) ≡ Under.Advance (Point.FrameNo (saved s.old).ep) }
    ensures { (b : List ℕ) → Resumes result v s.old b s.new b }
{
    if fits(v, 16) {
        let e = ep_byte(s);
        let now = microframe_index(Frame(half(v)));
        let last = load_paced(s, e);
        let n = completions(Frame(last), now);
        let kept = frame_of_index(now);
        return iso_in_advance_resume(s, e, n as u8, kept.0);
    }
    Step::Refused(rows::READING)
}

// A packet's address is written: its length.
pub fn resume_sent(s: &mut State) -> Step
    requires { AtNumber tags.ADVANCE at.SENT s.old }
    ensures { (v : ℕ) (b : List ℕ) → Resumes result v s.old b s.new b }
{
    let x = completion_at(s);
    let n = next_len(s, Dir::In, x.of);
    let q = Access::Write(Reg::EpTLen, x.of, n as u32);
    stand_loaded(s, q, x.e, x.left, x.frame, x.of)
}

// Its length is: its writer is woken, and the next completion is due.
pub fn resume_loaded(s: &mut State) -> Step
    requires { AtNumber tags.ADVANCE at.LOADED s.old }
    ensures { (v : ℕ) (b : List ℕ) → Resumes result v s.old b s.new b }
{
    let x = completion_at(s);
    wake(s, Dir::In, x.of);
    iso_in_advance_resume(s, x.e, x.left, x.frame)
}
