// A read or write goes on (endpoint.rs 82-195): one function for each of its points, which loads its own parts and
// stores the next point's bytes.
ghost use Rattle.std.specs.Prelude.{◌≡◌, List, ℕ};
ghost use Rattle.state.specs.State.{saved};
ghost use Rattle.endpoint.specs.declared.Point.TheVariants as Point;
ghost use Rattle.machine.specs.declared.Suspended.TheVariants as Under;
ghost use Rattle.machine.specs.Suspended.{decode};
ghost use Rattle.script_ops.specs.Numbers as tags;
ghost use Rattle.endpoint.specs.Codec as at;
ghost use Rattle.machine.specs.Stands.{AtNumber, Resumes};

use crate::endpoint_stands::{stand_ack_in, stand_wrote};
use crate::points_loads::dir_at;
use crate::stands::stop;
use answer::Step;
use answer::loads::ep_byte;
use endpoint::common::byte;
use regs::control_word::ack;
use regs::registers::{ctrl_of, fits};
use regs::{Access, Reg};
use script_ops::rows;
use state::State;

// The last write is made.
pub fn resume_wrote(s: &mut State) -> Step
    requires { decode (saved s.old) ≡ Under.Endpoint Point.Wrote }
    ensures { (v : ℕ) (b : List ℕ) → Resumes result v s.old b s.new b }
{
    stop(s, 0)
}

// The control word is read, to answer ACK.
pub fn resume_ack(s: &mut State, v: u32) -> Step
    requires { AtNumber tags.ENDPOINT at.ACK s.old }
    ensures { (b : List ℕ) → Resumes result v s.old b s.new b }
{
    if fits(v, 8) {
        let d = dir_at(s);
        let e = ep_byte(s);
        let w = ack(byte(v));
        let reg = ctrl_of(d);
        return stand_wrote(s, Access::Write(reg, e, w as u32));
    }
    Step::Refused(rows::READING)
}

// Ep_t_len is written.
pub fn resume_loaded(s: &mut State) -> Step
    requires { AtNumber tags.ENDPOINT at.LOADED s.old }
    ensures { (v : ℕ) (b : List ℕ) → Resumes result v s.old b s.new b }
{
    let e = ep_byte(s);
    stand_ack_in(s, Access::Read(Reg::EpTxCtrl, e), e)
}
