// Isochronous OUTs are looked at (mod.rs 792-797), then EP0's hidden stage (mod.rs 798-800, 822-852).
ghost use Rattle.std.specs.Prelude.{◌≡◌, true};
ghost use Rattle.regs.specs.Registers.{fits_in};
ghost use Rattle.script.specs.Tree.{bind_out};
ghost use Rattle.script.specs.Script.{run};
ghost use Rattle.script.specs.Handler.{moved_on};
ghost use Rattle.isochronous.specs.Points as checks;
ghost use Rattle.script_ops.specs.Concrete.{concrete};
ghost use Rattle.interrupt.specs.Continuations.{finish, after_check, after_dispatch};
ghost use Rattle.interrupt.specs.Points.{denote};
ghost use Rattle.interrupt.specs.declared.Point.TheVariants as Point;
ghost use Rattle.interrupt.specs.Stands.{RunsOn, RunsOnWith, RunsOnFrom};

use crate::Entry;
use crate::setup::after_transfer;
use crate::stands::{stand_check, stand_moved_read, stand_moved_wrote};
use crate::wait::byte;
use isochronous::out::{Check, CheckNext};
use regs::registers::ctrl_of;
use regs::{Access, Dir, Token, control_word, status};
use script::Transfer;
use script_ops::records::wake;
use script_ops::rings::is_on;
use state::{State, load_ep, store_ep};

pub fn after_moved_wrote(s: &mut State, d: Dir, setup: bool) -> u64
    ensures { RunsOnFrom result (Point.MovedWrote d setup) s.old s.new }
{
    let mut r = load_ep(s, d, 0);
    r.ready = 1;
    r.armed = 0;
    store_ep(s, d, 0, r);
    wake(s, d, 0);
    after_transfer(s, setup)
}

pub fn after_moved_read(s: &mut State, d: Dir, setup: bool, v: u32) -> u64
    requires { fits_in v 8 ≡ true }
    ensures { RunsOn result (denote (Point.MovedRead d setup) v) s.old s.new }
{
    let word = control_word::nakflip(byte(v));
    stand_moved_wrote(s, Access::Write(ctrl_of(d), 0, word as u32), d, setup)
}

fn moved_on(s: &mut State, d: Dir, setup: bool) -> u64
    ensures { RunsOn result (λ t. finish setup (run concrete (moved_on {i = true} d) t)) s.old
        s.new }
{
    let r = load_ep(s, d, 0);
    if is_on(r.armed) {
        return stand_moved_read(s, Access::Read(ctrl_of(d), 0), d, setup);
    }
    after_transfer(s, setup)
}

// The host's token for the other direction says that a stage went through (`ep0_moved_on`).
pub fn ep0_moved_on(s: &mut State, setup: bool, x: Transfer) -> u64
    ensures { RunsOn result (λ t. finish setup (run concrete (after_check x) t)) s.old s.new }
{
    if status::endpoint(x.st) == 0 {
        let t = status::token(x.st);
        match t {
            Token::Out => moved_on(s, Dir::In, setup),
            Token::In => moved_on(s, Dir::Out, setup),
            _ => after_transfer(s, setup),
        }
    } else {
        after_transfer(s, setup)
    }
}

// Where the check stops, or what follows it.
fn checked(s: &mut State, buf: &[u8], e: Entry, n: CheckNext) -> u64
    requires { checks.Linked n }
    ensures { RunsOnWith result (λ t. finish e.setup
        (bind_out (checks.meaning e.x e.iso n t.0 t.1) (λ _ u. run concrete (after_check e.x) u)))
        s.old buf.now s.new buf.now }
{
    match n {
        CheckNext::Asks(q, p) => stand_check(s, q, e, p),
        CheckNext::Ends => ep0_moved_on(s, e.setup, e.x),
    }
}

pub fn after_checking(s: &mut State, buf: &mut [u8], e: Entry, p: Check, v: u32) -> u64
    requires { checks.fits_at p v ≡ true }
    ensures { RunsOnWith result (denote (Point.Check e.setup e.x e.iso p) v)
        s.old buf.old s.new buf.new }
{
    let n = isochronous::out::iso_out_check_resume(s, buf, e.x, e.iso, p, v);
    checked(s, buf, e, n)
}

// An OUT completes too early in its microframe to merge into the next SOF's entry (mod.rs 795-797).
pub fn after_dispatch(s: &mut State, buf: &mut [u8], e: Entry) -> u64
    ensures { RunsOnWith result (λ t. finish e.setup (run concrete (after_dispatch e.x e.iso) t))
        s.old buf.old s.new buf.new }
{
    if status::is_sof(e.x.st) {
        return after_transfer(s, e.setup);
    }
    let n = isochronous::out::iso_out_check(s, buf, e.x, e.iso);
    match n {
        CheckNext::Asks(q, p) => stand_check(s, q, e, p),
        CheckNext::Ends => ep0_moved_on(s, e.setup, e.x),
    }
}
