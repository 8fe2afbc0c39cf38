// A late entry (mod.rs 736-746): the endpoints polled every microframe that have not completed in this one do.
ghost use Rattle.std.specs.Prelude.{◌≡◌, List, ℕ};
ghost use Rattle.state.specs.State.{view, saved};
ghost use Rattle.script.specs.Script.{run};
ghost use Rattle.script_ops.specs.Means.{MeansFrom};
ghost use Rattle.script_ops.specs.Concrete.{concrete};
ghost use Rattle.isochronous.specs.Late.{late_all, walking, looked, denote, meaning, Linked};

use crate::complete;
use crate::complete::{Complete, CompleteNext, start};
use crate::iso_in::{Found, first_in_frame, iso_in_every};
use bits::{next_endpoint, rest_of};
use regs::Access;
use state::{State, load_globals};

// An endpoint completes, and the endpoints that are left. Nothing is awaited.
#[derive(Clone, Copy)]
pub struct Late {
    pub rest: u16,
    pub completing: Complete,
}

#[derive(Clone, Copy)]
pub enum LateNext {
    Asks(Access, Late),
    Ends,
}

// Passes over those that completed in this microframe; it is recorded of each that is reached.
fn find(s: &mut State, frame: u16, m: u16) -> Found
    ensures by_index { (b : List ℕ) → looked frame result (view s.new, b)
        ≡ walking frame m (view s.old, b) }
    ensures s_unchanged { saved s.new ≡ saved s.old }
{
    let mut eps = m;
    while eps != 0 {
        let e = next_endpoint(eps);
        let rest = rest_of(eps);
        if first_in_frame(s, e, frame) {
            return Found::At(e, rest);
        }
        eps = rest;
    }
    Found::Nothing
}

fn walk(s: &mut State, frame: u16, m: u16) -> LateNext
    ensures { MeansFrom (meaning frame result) (Linked result) (walking frame m) s.old s.new }
{
    let f = find(s, frame, m);
    match f {
        Found::At(e, rest) => {
            let x = start(s, e);
            let q = x.access;
            let completing = x.point;
            LateNext::Asks(q, Late { rest, completing })
        }
        Found::Nothing => LateNext::Ends,
    }
}

pub fn begin(s: &mut State, frame: u16) -> LateNext
    ensures { MeansFrom (meaning frame result) (Linked result) (run concrete (late_all frame)) s.old
        s.new }
{
    let g = load_globals(s);
    walk(s, frame, iso_in_every(g))
}

pub fn resume(s: &mut State, frame: u16, p: Late) -> LateNext
    ensures { MeansFrom (meaning frame result) (Linked result) (denote frame p) s.old s.new }
{
    let rest = p.rest;
    let q = p.completing;
    let n = complete::iso_in_complete_resume(s, q);
    match n {
        CompleteNext::Asks(q, completing) => LateNext::Asks(q, Late { rest, completing }),
        CompleteNext::Ends => walk(s, frame, rest),
    }
}
