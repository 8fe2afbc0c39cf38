// A completion (mod.rs 405-414, 593-608): the loaded packet went out, the next is loaded, its writer is woken.
ghost use Rattle.std.specs.Prelude.{true};
ghost use Rattle.script.specs.Script.{run};
ghost use Rattle.script.specs.IsoIn.{iso_in_complete};
ghost use Rattle.script_ops.specs.Means.{MeansAt, MeansFrom};
ghost use Rattle.script_ops.specs.Concrete.{concrete};
ghost use Rattle.isochronous.specs.Complete.{denote, loading, begun, meaning, Linked, Bound};

use regs::{Access, Dir, Reg};
use script_ops::records::wake;
use script_ops::rings::{next_len, send, waiting};
use state::State;

// What was handed out last, of which endpoint. Nothing is awaited at either.
#[derive(Clone, Copy)]
pub enum Complete {
    Sent(u8), // the transmit address
    Loaded(u8), // ep_t_len
}

#[derive(Clone, Copy)]
pub enum CompleteNext {
    Asks(Access, Complete),
    Ends,
}

// The first access, which every completion has, and its point.
#[derive(Clone, Copy)]
pub struct Begun {
    pub access: Access,
    pub point: Complete,
}

// The oldest packet, or a zero-length one.
fn iso_in_load(s: &mut State, e: u8) -> Begun
    ensures { MeansFrom (begun result) (Bound result) (run concrete (loading e)) s.old s.new }
{
    if waiting(s, Dir::In, e) {
        let at = send(s, e);
        return Begun {
            access: Access::Transmit(e, at),
            point: Complete::Sent(e),
        };
    }
    Begun {
        access: Access::Write(Reg::EpTLen, e, 0),
        point: Complete::Loaded(e),
    }
}

// What went out is counted, the next is loaded.
pub fn start(s: &mut State, e: u8) -> Begun
    ensures { MeansFrom (begun result) (Bound result) (run concrete (iso_in_complete {i = true} e)) s.old
        s.new }
{
    script_ops::rings::complete(s, e);
    iso_in_load(s, e)
}

pub fn iso_in_complete(s: &mut State, e: u8) -> CompleteNext
    ensures { MeansFrom (meaning result) (Linked result) (run concrete (iso_in_complete {i = true} e)) s.old
        s.new }
{
    let x = start(s, e);
    let q = x.access;
    let p = x.point;
    CompleteNext::Asks(q, p)
}

fn after_loaded(s: &mut State, e: u8) -> CompleteNext
    ensures { MeansFrom (meaning result) (Linked result) (denote (Complete.Loaded e)) s.old s.new }
{
    wake(s, Dir::In, e);
    CompleteNext::Ends
}

fn after_sent(s: &State, e: u8) -> CompleteNext
    ensures { MeansAt (meaning result) (Linked result) (denote (Complete.Sent e)) s.now }
{
    let n = next_len(s, Dir::In, e);
    CompleteNext::Asks(Access::Write(Reg::EpTLen, e, n as u32), Complete::Loaded(e))
}

pub fn iso_in_complete_resume(s: &mut State, p: Complete) -> CompleteNext
    ensures { MeansFrom (meaning result) (Linked result) (denote p) s.old s.new }
{
    match p {
        Complete::Sent(e) => after_sent(s, e),
        Complete::Loaded(e) => after_loaded(s, e),
    }
}
