// What a token completes (mod.rs 748-790), one access at a time. Every function is total: any number is safe.
ghost use Rattle.std.specs.Prelude.{◌≡◌, true, List, ℕ};
ghost use Rattle.regs.specs.Registers.{fits_in};
ghost use Rattle.regs.specs.Status.{endpoint, token, is_sof};
ghost use Rattle.state.specs.State.{view, saved};
ghost use Rattle.script.specs.Tree.{ends, bind_out};
ghost use Rattle.script.specs.Script.{run};
ghost use Rattle.script.specs.Handler as script;
ghost use Rattle.interrupt.specs.Toggled as toggles;
ghost use Rattle.isochronous.specs.Complete as completes;
ghost use Rattle.isochronous.specs.Sof as sofs;
ghost use Rattle.script_ops.specs.Concrete.{concrete, go};
ghost use Rattle.interrupt.specs.Continuations.{after_arm, flip_done, passed, after_toggled};
ghost use Rattle.interrupt.specs.Points.{denote};
ghost use Rattle.interrupt.specs.declared.Point.TheVariants as Point;
ghost use Rattle.interrupt.specs.Stands.{RunsOn, RunsOnWith, RunsOnFromWith};

use crate::check::after_dispatch;
use crate::setup::after_transfer;
use crate::stands::{stand_completing, stand_flip, stand_flipped, stand_sof_arm, stand_toggled};
use crate::toggled::{Toggled, ToggledNext};
use crate::wait::byte;
use crate::{Entry, toggled};
use bits::mask_has;
use isochronous::complete::{Complete, CompleteNext};
use isochronous::iso_in::first_in_frame;
use isochronous::sof::{Sof, SofNext};
use isochronous::{complete, sof};
use regs::registers::ctrl_of;
use regs::{Access, Dir, Reg, Token, control_word, status};
use script_ops::records::wake;
use state::{State, load_ep, load_globals, store_ep};

// A packet arrived (mod.rs 767-770).
fn received(s: &mut State, ep: u8, len: u16)
    ensures by_index { (b : List ℕ) → ends tt (view s.new, b)
        ≡ go {i = true} (script.received ep len) (view s.old) b }
    ensures s_unchanged { saved s.new ≡ saved s.old }
{
    let mut r = load_ep(s, Dir::Out, ep);
    r.len = len;
    r.armed = 0;
    r.ready = 1;
    store_ep(s, Dir::Out, ep, r);
    wake(s, Dir::Out, ep);
}

// A packet went out (mod.rs 786-787).
fn sent(s: &mut State, ep: u8)
    ensures by_index { (b : List ℕ) → ends tt (view s.new, b)
        ≡ go {i = true} (script.sent ep) (view s.old) b }
    ensures s_unchanged { saved s.new ≡ saved s.old }
{
    let mut r = load_ep(s, Dir::In, ep);
    r.ready = 1;
    store_ep(s, Dir::In, ep, r);
    wake(s, Dir::In, ep);
}

fn passed(s: &mut State, d: Dir, ep: u8, len: u16)
    ensures by_index { (b : List ℕ) → ends tt (view s.new, b)
        ≡ go (passed d ep len) (view s.old) b }
    ensures s_unchanged { saved s.new ≡ saved s.old }
{
    match d {
        Dir::Out => received(s, ep, len),
        Dir::In => sent(s, ep),
    }
}

fn flip_done(s: &mut State, d: Dir, len: u16)
    ensures by_index { (b : List ℕ) → ends tt (view s.new, b)
        ≡ go (flip_done d len) (view s.old) b }
    ensures s_unchanged { saved s.new ≡ saved s.old }
{
    match d {
        Dir::Out => received(s, 0, len),
        Dir::In => {
            let mut r = load_ep(s, Dir::In, 0);
            r.armed = 0;
            store_ep(s, Dir::In, 0, r);
            sent(s, 0);
        }
    }
}

pub fn after_flipped(s: &mut State, buf: &mut [u8], d: Dir, e: Entry) -> u64
    ensures { RunsOnFromWith result (Point.Flipped d e.setup e.x e.iso) s.old buf.old
        s.new buf.new }
{
    flip_done(s, d, e.x.len);
    after_dispatch(s, buf, e)
}

pub fn after_flip(s: &mut State, d: Dir, e: Entry, v: u32) -> u64
    requires { fits_in v 8 ≡ true }
    ensures { RunsOn result (denote (Point.Flip d e.setup e.x e.iso) v) s.old s.new }
{
    let word = control_word::flip(byte(v));
    stand_flipped(s, Access::Write(ctrl_of(d), 0, word as u32), d, e)
}

// What follows `toggled`: a packet went through, or the endpoint stays as it is.
fn after_passing(s: &mut State, buf: &mut [u8], d: Dir, e: Entry, b: bool) -> u64
    ensures { RunsOnWith result (λ t. after_arm e (run concrete (after_toggled d e.x b) t))
        s.old buf.old s.new buf.new }
{
    if b {
        passed(s, d, status::endpoint(e.x.st), e.x.len);
        return after_dispatch(s, buf, e);
    }
    after_dispatch(s, buf, e)
}

// Where `toggled` stops, or what follows it.
fn then_toggled(s: &mut State, buf: &mut [u8], d: Dir, e: Entry, n: ToggledNext) -> u64
    requires { toggles.Linked n }
    ensures { RunsOnWith result (λ t. after_arm e
        (bind_out (toggles.meaning d (endpoint e.x.st) n t.0 t.1)
        (λ b u. run concrete (after_toggled d e.x b) u)))
        s.old buf.old s.new buf.new }
{
    match n {
        ToggledNext::Asks(q, p) => stand_toggled(s, q, d, e, p),
        ToggledNext::Ends(b) => after_passing(s, buf, d, e, b),
    }
}

pub fn after_toggled(s: &mut State, buf: &mut [u8], d: Dir, e: Entry, p: Toggled, v: u32) -> u64
    requires { toggles.fits_at p v ≡ true }
    ensures { RunsOnWith result (denote (Point.Toggled d e.setup e.x e.iso p) v)
        s.old buf.old s.new buf.new }
{
    let n = toggled::resume(s, d, status::endpoint(e.x.st), p, v);
    then_toggled(s, buf, d, e, n)
}

// Bulk and interrupt (mod.rs 759, 778).
fn toggled_arm(s: &mut State, buf: &mut [u8], d: Dir, e: Entry) -> u64
    ensures { RunsOnWith result (λ t. after_arm e
        (bind_out (run concrete (script.toggled {i = true} d (endpoint e.x.st)) t)
        (λ b u. run concrete (after_toggled d e.x b) u)))
        s.old buf.old s.new buf.new }
{
    let n = toggled::begin(d, status::endpoint(e.x.st));
    match n {
        ToggledNext::Asks(q, p) => stand_toggled(s, q, d, e, p),
        ToggledNext::Ends(b) => after_passing(s, buf, d, e, b),
    }
}

// The arms of OUT (mod.rs 755-771).
fn out_arm(s: &mut State, buf: &mut [u8], e: Entry) -> u64
    ensures { RunsOnWith result (λ t. after_arm e (run concrete (script.out_arm {i = true} e.x e.iso) t))
        s.old buf.old s.new buf.new }
{
    if e.iso {
        return after_dispatch(s, buf, e);
    }
    if status::endpoint(e.x.st) == 0 {
        if status::tog_ok(e.x.st) {
            return stand_flip(s, Access::Read(Reg::EpRxCtrl, 0), Dir::Out, e);
        }
        return after_dispatch(s, buf, e);
    }
    toggled_arm(s, buf, Dir::Out, e)
}

fn then_complete(s: &mut State, buf: &mut [u8], e: Entry, n: CompleteNext) -> u64
    requires { completes.Linked n }
    ensures { RunsOnWith result (λ t. after_arm e (completes.meaning n t.0 t.1))
        s.old buf.old s.new buf.new }
{
    match n {
        CompleteNext::Asks(q, p) => stand_completing(s, q, e, p),
        CompleteNext::Ends => after_dispatch(s, buf, e),
    }
}

pub fn after_completing(s: &mut State, buf: &mut [u8], e: Entry, p: Complete) -> u64
    ensures { RunsOnFromWith result (Point.Completing e.setup e.x e.iso p)
        s.old buf.old s.new buf.new }
{
    let n = complete::iso_in_complete_resume(s, p);
    then_complete(s, buf, e, n)
}

// One isochronous IN per microframe, where it is not paced (mod.rs 772-777).
fn iso_in_arm(s: &mut State, buf: &mut [u8], e: Entry) -> u64
    ensures { RunsOnWith result (λ t. after_arm e (run concrete
        (script.iso_in_arm {i = true} (endpoint e.x.st) e.frame) t))
        s.old buf.old s.new buf.new }
{
    let ep = status::endpoint(e.x.st);
    let g = load_globals(s);
    if mask_has(g.iso_in_paced, ep) {
        return after_dispatch(s, buf, e);
    }
    if first_in_frame(s, ep, e.frame) {
        let n = complete::iso_in_complete(s, ep);
        match n {
            CompleteNext::Asks(q, p) => stand_completing(s, q, e, p),
            CompleteNext::Ends => after_dispatch(s, buf, e),
        }
    } else {
        after_dispatch(s, buf, e)
    }
}

// The arms of IN (mod.rs 772-788).
fn in_arm(s: &mut State, buf: &mut [u8], e: Entry) -> u64
    ensures { RunsOnWith result (λ t. after_arm e (run concrete (script.in_arm {i = true} e.x e.iso e.frame)
        t))
        s.old buf.old s.new buf.new }
{
    if e.iso {
        return iso_in_arm(s, buf, e);
    }
    if status::endpoint(e.x.st) == 0 {
        return stand_flip(s, Access::Read(Reg::EpTxCtrl, 0), Dir::In, e);
    }
    toggled_arm(s, buf, Dir::In, e)
}

fn then_sof_arm(s: &mut State, buf: &mut [u8], e: Entry, n: SofNext) -> u64
    requires { sofs.Linked n }
    ensures { RunsOnWith result (λ t. after_arm e (sofs.meaning e.frame n t.0 t.1))
        s.old buf.old s.new buf.new }
{
    match n {
        SofNext::Asks(q, p) => stand_sof_arm(s, q, e, p),
        SofNext::Ends => {
            if status::is_sof(e.x.st) {
                return after_transfer(s, e.setup);
            }
            after_dispatch(s, buf, e)
        }
    }
}

pub fn after_sof_arm(s: &mut State, buf: &mut [u8], e: Entry, p: Sof, v: u32) -> u64
    requires { sofs.fits_at p v ≡ true }
    ensures { RunsOnWith result (denote (Point.SofArm e.setup e.x e.iso e.frame p) v)
        s.old buf.old s.new buf.new }
{
    let n = sof::on_sof_resume(s, e.frame, p, v);
    then_sof_arm(s, buf, e, n)
}

// SOF's own (mod.rs 750-754), after which nothing of the transfer is left.
fn sof_arm(s: &mut State, e: Entry) -> u64
    requires { is_sof e.x.st ≡ true }
    ensures { RunsOn result (λ t. after_arm e (run concrete (script.sof_arm {i = true} e.frame) t)) s.old
        s.new }
{
    let g = load_globals(s);
    if g.sof_frame == e.frame {
        return after_transfer(s, e.setup);
    }
    let n = sof::on_sof(s, e.frame);
    match n {
        SofNext::Asks(q, p) => stand_sof_arm(s, q, e, p),
        SofNext::Ends => after_transfer(s, e.setup),
    }
}

pub fn dispatch(s: &mut State, buf: &mut [u8], e: Entry) -> u64
    ensures { RunsOnWith result (λ t. after_arm e (run concrete
        (script.dispatch {i = true} (token e.x.st) e.x e.iso e.frame) t))
        s.old buf.old s.new buf.new }
{
    let t = status::token(e.x.st);
    match t {
        Token::Sof => sof_arm(s, e),
        Token::Out => out_arm(s, buf, e),
        Token::In => in_arm(s, buf, e),
        Token::Setup => after_dispatch(s, buf, e),
    }
}
