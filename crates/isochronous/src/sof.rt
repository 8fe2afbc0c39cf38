// `on_sof` (mod.rs 564-591): an endpoint polled every microframe that did not complete in the last one went out unseen.
ghost use Rattle.std.specs.Prelude.{◌≡◌, true, List, ℕ};
ghost use Rattle.regs.specs.Registers.{fits_in};
ghost use Rattle.frame.specs.Usb20.{index_of, frame_of};
ghost use Rattle.frame.specs.Advance as frames;
ghost use Rattle.state.specs.State.{view};
ghost use Rattle.script.specs.Script.{run};
ghost use Rattle.script.specs.IsoIn as script;
ghost use Rattle.script_ops.specs.Means.{MeansAt, MeansFrom};
ghost use Rattle.script_ops.specs.Concrete.{concrete};
ghost use Rattle.isochronous.specs.Sof.{walking, then_walk, looked, denote, meaning, Linked, fits_at};

use crate::complete;
use crate::complete::{Complete, CompleteNext, start};
use crate::iso_in::{Found, byte, iso_in_every, record_frame};
use bits::{next_endpoint, rest_of};
use frame::{Frame, frame_of_index, in_previous, microframe_index, previous};
use regs::mis_status::sie_free;
use regs::registers::fits;
use regs::{Access, Dir, Reg, status};
use script_ops::rings::is_on;
use state::{State, load_ep, load_globals, store_globals};

// Where it stands, with the endpoints that are left.
#[derive(Clone, Copy)]
pub enum Sof {
    Mis(u8, u16), // mis_st is read, for an endpoint
    St(u8, u16), // int_st
    Completing(u16, Complete), // an endpoint completes
    Callback, // the callback is called
}

#[derive(Clone, Copy)]
pub enum SofNext {
    Asks(Access, Sof),
    Ends,
}

// Passes over those that completed in the microframe before.
fn find(s: &State, frame: u16, m: u16) -> Found
    ensures { (b : List ℕ) → looked frame result (view s.now, b)
        ≡ walking frame m (view s.now, b) }
{
    let mut eps = m;
    while eps != 0 {
        let e = next_endpoint(eps);
        let rest = rest_of(eps);
        let r = load_ep(s, Dir::In, e);
        if !in_previous(Frame(r.last_frame), Frame(frame)) {
            return Found::At(e, rest);
        }
        eps = rest;
    }
    Found::Nothing
}

// After the last endpoint, the callback.
fn walk(s: &State, frame: u16, m: u16) -> SofNext
    ensures { MeansAt (meaning frame result) (Linked result) (walking frame m) s.now }
{
    let f = find(s, frame, m);
    match f {
        Found::At(e, rest) => SofNext::Asks(Access::Read(Reg::MisSt, 0), Sof::Mis(e, rest)),
        Found::Nothing => {
            let g = load_globals(s);
            if is_on(g.callback) {
                return SofNext::Asks(Access::Callback, Sof::Callback);
            }
            SofNext::Ends
        }
    }
}

pub fn on_sof(s: &mut State, frame: u16) -> SofNext
    ensures { MeansFrom (meaning frame result) (Linked result) (run concrete (script.on_sof {i = true} frame))
        s.old s.new }
{
    let mut g = load_globals(s);
    g.sof_frame = frame;
    store_globals(s, g);
    walk(s, frame, iso_in_every(g))
}

// The frame of the microframe before.
fn frame_before(frame: u16) -> u16
    ensures { result ≡ frame_of (frames.previous (index_of frame)) }
{
    let i = previous(microframe_index(Frame(frame)));
    frame_of_index(i).0
}

// It completed in the microframe before.
fn unseen(s: &mut State, frame: u16, e: u8, m: u16) -> SofNext
    ensures { MeansFrom (meaning frame result) (Linked result)
        (λ t. then_walk frame m (run concrete (script.unseen {i = true} frame e) t))
        s.old s.new }
{
    record_frame(s, e, frame_before(frame));
    let x = start(s, e);
    let q = x.access;
    let p = x.point;
    SofNext::Asks(q, Sof::Completing(m, p))
}

fn after_mis(s: &mut State, frame: u16, e: u8, m: u16, v: u32) -> SofNext
    requires { fits_in v 8 ≡ true }
    ensures { MeansFrom (meaning frame result) (Linked result) (denote frame (Sof.Mis e m) v) s.old
        s.new }
{
    if sie_free(byte(v)) {
        return unseen(s, frame, e, m);
    }
    SofNext::Asks(Access::Read(Reg::IntSt, 0), Sof::St(e, m))
}

// An IN to this endpoint is on the bus (mod.rs 576-578).
fn leaving(st: u8, e: u8) -> bool
    ensures { result ≡ script.leaving st e }
{
    if status::is_in(st) {
        return status::endpoint(st) == e;
    }
    false
}

fn after_st(s: &mut State, frame: u16, e: u8, m: u16, v: u32) -> SofNext
    requires { fits_in v 8 ≡ true }
    ensures { MeansFrom (meaning frame result) (Linked result) (denote frame (Sof.St e m) v) s.old
        s.new }
{
    if leaving(byte(v), e) {
        return walk(s, frame, m);
    }
    unseen(s, frame, e, m)
}

fn after_completing(s: &mut State, frame: u16, m: u16, p: Complete) -> SofNext
    ensures { (v : ℕ) → MeansFrom (meaning frame result) (Linked result) (denote frame (Sof.Completing m p) v)
        s.old s.new }
{
    let n = complete::iso_in_complete_resume(s, p);
    match n {
        CompleteNext::Asks(q, p) => SofNext::Asks(q, Sof::Completing(m, p)),
        CompleteNext::Ends => walk(s, frame, m),
    }
}

// Row 16 turned round: where a reading is awaited, has it no bit above its register's width?
pub fn fits_at(p: Sof, v: u32) -> bool
    ensures { result ≡ fits_at p v }
{
    match p {
        Sof::Mis(_e, _m) => fits(v, 2),
        Sof::St(_e, _m) => fits(v, 7),
        Sof::Completing(_m, _p) => true,
        Sof::Callback => true,
    }
}

pub fn on_sof_resume(s: &mut State, frame: u16, p: Sof, v: u32) -> SofNext
    requires { fits_at p v ≡ true }
    ensures { MeansFrom (meaning frame result) (Linked result) (denote frame p v) s.old s.new }
{
    match p {
        Sof::Mis(e, m) => after_mis(s, frame, e, m, v),
        Sof::St(e, m) => after_st(s, frame, e, m, v),
        Sof::Completing(m, q) => after_completing(s, frame, m, q),
        Sof::Callback => SofNext::Ends,
    }
}
