ghost use Rattle.std.specs.Prelude.{◌≡◌, true, false};
ghost use Rattle.script.specs.Script.{run};
ghost use Rattle.script.specs.Handler.{out_naks, in_naks, nak_non_iso};
ghost use Rattle.script_ops.specs.Means.{Means, MeansAt};
ghost use Rattle.script_ops.specs.Concrete.{concrete};
ghost use Rattle.script_ops.specs.Records.{plain_of};
ghost use Rattle.interrupt.specs.Nak.{denote, meaning, Linked, fits_at};

use crate::wait::byte;
use regs::registers::{ctrl_of, fits};
use regs::{Access, Dir, Reg, control_word, status};
use script_ops::rings::is_on;
use state::{EpState, State, load_ep};

// Where it stands.
#[derive(Clone, Copy)]
pub enum Nak {
    Word(Dir), // a control word is read
    Wrote, // it answers NAK
}

#[derive(Clone, Copy)]
pub enum NakNext {
    Asks(Access, Nak),
    Ends,
}

// The guard of the arm of OUT.
fn out_naks(st: u8, r: EpState) -> bool
    ensures { result ≡ out_naks st (plain_of r) }
{
    if !status::is_out(st) {
        return false;
    }
    if status::endpoint(st) == 0 {
        return status::tog_ok(st);
    }
    !is_on(r.iso)
}

// That of IN.
fn in_naks(st: u8, r: EpState) -> bool
    ensures { result ≡ in_naks st (plain_of r) }
{
    if !status::is_in(st) {
        return false;
    }
    !is_on(r.iso)
}

// `nak_non_iso` (mod.rs 416-431).
pub fn nak_non_iso(s: &State, st: u8) -> NakNext
    ensures { MeansAt (meaning st result) (Linked result) (run concrete (nak_non_iso {i = true} st)) s.now }
{
    let ep = status::endpoint(st);
    let o = load_ep(s, Dir::Out, ep);
    if out_naks(st, o) {
        return NakNext::Asks(Access::Read(Reg::EpRxCtrl, ep), Nak::Word(Dir::Out));
    }
    let n = load_ep(s, Dir::In, ep);
    if in_naks(st, n) {
        return NakNext::Asks(Access::Read(Reg::EpTxCtrl, ep), Nak::Word(Dir::In));
    }
    NakNext::Ends
}

pub fn nak_non_iso_resume(st: u8, p: Nak, v: u32) -> NakNext
    requires { fits_at p v ≡ true }
    ensures { Means (meaning st result) (Linked result) (denote st p v) }
{
    match p {
        Nak::Word(dir) => {
            let word = control_word::nak(byte(v));
            NakNext::Asks(
                Access::Write(ctrl_of(dir), status::endpoint(st), word as u32),
                Nak::Wrote,
            )
        }
        Nak::Wrote => NakNext::Ends,
    }
}

pub fn fits_at(p: Nak, v: u32) -> bool
    ensures { result ≡ fits_at p v }
{
    match p {
        Nak::Word(_dir) => fits(v, 8),
        Nak::Wrote => true,
    }
}
