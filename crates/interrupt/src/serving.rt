// The microframe's SOF, then a late entry's completions (mod.rs 729-747).
ghost use Rattle.std.specs.Prelude.{◌≡◌, true, false};
ghost use Rattle.script.specs.Tree.{bind_out};
ghost use Rattle.script.specs.Script.{run};
ghost use Rattle.isochronous.specs.Sof as sofs;
ghost use Rattle.isochronous.specs.Late as lates;
ghost use Rattle.script_ops.specs.Concrete.{concrete};
ghost use Rattle.interrupt.specs.Continuations.{finish, sof_due, after_late, after_sof, serving};
ghost use Rattle.interrupt.specs.Points.{denote};
ghost use Rattle.interrupt.specs.declared.Point.TheVariants as Point;
ghost use Rattle.interrupt.specs.Stands.{RunsOnWith, RunsOnFromWith};

use crate::Entry;
use crate::check::after_dispatch;
use crate::stands::{stand_late, stand_sof};
use crate::tokens::dispatch;
use isochronous::late::{Late, LateNext};
use isochronous::sof::{Sof, SofNext};
use isochronous::{late, sof};
use regs::status;
use script::Transfer;
use state::{State, load_globals};

// A transaction that is still on the bus is left to its own entry (mod.rs 748).
fn after_late(s: &mut State, buf: &mut [u8], e: Entry) -> u64
    ensures { RunsOnWith result (λ t. finish e.setup (run concrete (after_late e.x e.iso e.frame) t))
        s.old buf.old s.new buf.new }
{
    if e.x.busy {
        return after_dispatch(s, buf, e);
    }
    dispatch(s, buf, e)
}

fn then_late(s: &mut State, buf: &mut [u8], e: Entry, n: LateNext) -> u64
    requires { lates.Linked n }
    ensures { RunsOnWith result (λ t. finish e.setup
        (bind_out (lates.meaning e.frame n t.0 t.1)
        (λ _ u. run concrete (after_late e.x e.iso e.frame) u)))
        s.old buf.old s.new buf.new }
{
    match n {
        LateNext::Asks(q, p) => stand_late(s, q, e, p),
        LateNext::Ends => after_late(s, buf, e),
    }
}

pub fn after_completions(s: &mut State, buf: &mut [u8], e: Entry, p: Late) -> u64
    ensures { RunsOnFromWith result (Point.Late e.setup e.x e.iso e.frame p)
        s.old buf.old s.new buf.new }
{
    let n = late::resume(s, e.frame, p);
    then_late(s, buf, e, n)
}

// What raised a late entry completed before the OUT (mod.rs 735-747).
fn after_sof(s: &mut State, buf: &mut [u8], e: Entry) -> u64
    ensures { RunsOnWith result (λ t. finish e.setup (run concrete (after_sof e.x e.iso e.frame) t))
        s.old buf.old s.new buf.new }
{
    if e.x.late {
        let n = late::begin(s, e.frame);
        return then_late(s, buf, e, n);
    }
    after_late(s, buf, e)
}

fn then_sof(s: &mut State, buf: &mut [u8], e: Entry, n: SofNext) -> u64
    requires { sofs.Linked n }
    ensures { RunsOnWith result (λ t. finish e.setup
        (bind_out (sofs.meaning e.frame n t.0 t.1)
        (λ _ u. run concrete (after_sof e.x e.iso e.frame) u)))
        s.old buf.old s.new buf.new }
{
    match n {
        SofNext::Asks(q, p) => stand_sof(s, q, e, p),
        SofNext::Ends => after_sof(s, buf, e),
    }
}

pub fn after_on_sof(s: &mut State, buf: &mut [u8], e: Entry, p: Sof, v: u32) -> u64
    requires { sofs.fits_at p v ≡ true }
    ensures { RunsOnWith result (denote (Point.Sof e.setup e.x e.iso e.frame p) v)
        s.old buf.old s.new buf.new }
{
    let n = sof::on_sof_resume(s, e.frame, p, v);
    then_sof(s, buf, e, n)
}

fn sof_due(x: Transfer, sof: u16, frame: u16) -> bool
    ensures { result ≡ sof_due x sof frame }
{
    if status::is_sof(x.st) {
        return false;
    }
    sof != frame
}

// The flag is one bit: a late entry also stands for the SOF (mod.rs 729-733).
pub fn serve(s: &mut State, buf: &mut [u8], e: Entry) -> u64
    ensures { RunsOnWith result (λ t. finish e.setup (run concrete (serving e.x e.iso e.frame) t))
        s.old buf.old s.new buf.new }
{
    let g = load_globals(s);
    if sof_due(e.x, g.sof_frame, e.frame) {
        let n = sof::on_sof(s, e.frame);
        return then_sof(s, buf, e, n);
    }
    if e.x.late {
        let n = late::begin(s, e.frame);
        return then_late(s, buf, e, n);
    }
    after_late(s, buf, e)
}
