// The transfer is entered, released, settled (mod.rs 656-722). Every function is total: any number is safe.
ghost use Rattle.std.specs.Prelude.{◌≡◌, true, false};
ghost use Rattle.regs.specs.Registers.{fits_in};
ghost use Rattle.regs.specs.Status.{token};
ghost use Rattle.script.specs.Tree.{bind_out};
ghost use Rattle.script.specs.Script.{run};
ghost use Rattle.script.specs.Handler as script;
ghost use Rattle.interrupt.specs.Nak as naks;
ghost use Rattle.interrupt.specs.Settle as settles;
ghost use Rattle.script_ops.specs.Concrete.{concrete};
ghost use Rattle.script_ops.specs.Records.{plain_of};
ghost use Rattle.interrupt.specs.Continuations.{finish, naks_first, entered_as, after_nak, after_release};
ghost use Rattle.interrupt.specs.Continuations.{after_settle};
ghost use Rattle.interrupt.specs.Points.{denote};
ghost use Rattle.interrupt.specs.declared.Point.TheVariants as Point;
ghost use Rattle.interrupt.specs.Stands.{RunsOn};

use crate::nak::{Nak, NakNext};
use crate::settle::{Settle, SettleNext};
use crate::stands::{stand_frame_no, stand_len, stand_nak, stand_released, stand_settle, stand_st};
use crate::wait::{byte, short};
use crate::{Entry, nak, settle};
use regs::flags::TRANSFER;
use regs::{Access, Dir, Reg, Token, mis_status, status};
use script::Transfer;
use script_ops::rings::is_on;
use state::{EpState, State, load_ep};

// `iso` (mod.rs 718-722).
fn iso_for(st: u8, o: EpState, n: EpState) -> bool
    ensures { result ≡ script.iso_for (token st) (plain_of o) (plain_of n) }
{
    let t = status::token(st);
    match t {
        Token::Out => is_on(o.iso),
        Token::Sof => true,
        Token::In => is_on(n.iso),
        Token::Setup => true,
    }
}

fn after_settle(s: &mut State, setup: bool, x: Transfer) -> u64
    ensures { RunsOn result (λ t. finish setup (run concrete (after_settle x) t)) s.old s.new }
{
    let ep = status::endpoint(x.st);
    let o = load_ep(s, Dir::Out, ep);
    let n = load_ep(s, Dir::In, ep);
    let e = Entry {
        setup,
        x,
        iso: iso_for(x.st, o, n),
        frame: 0,
    };
    stand_frame_no(s, e)
}

fn then_settle(s: &mut State, setup: bool, x: Transfer, n: SettleNext) -> u64
    requires { settles.Linked n }
    ensures { RunsOn result (λ t. finish setup (bind_out (settles.meaning x n t.0 t.1)
        (λ y u. run concrete (after_settle y) u)))
        s.old s.new }
{
    match n {
        SettleNext::Asks(q, p) => stand_settle(s, q, setup, x, p),
        SettleNext::Ends(y) => after_settle(s, setup, y),
    }
}

pub fn after_settling(s: &mut State, setup: bool, x: Transfer, p: Settle, v: u32) -> u64
    requires { settles.fits_at p v ≡ true }
    ensures { RunsOn result (denote (Point.Settle setup x p) v) s.old s.new }
{
    let n = settle::resume(s, x, p, v);
    then_settle(s, setup, x, n)
}

pub fn after_released(s: &mut State, setup: bool, x: Transfer) -> u64
    ensures { RunsOn result (λ t. finish setup (run concrete (after_release x) t)) s.old s.new }
{
    let n = settle::begin(s, x);
    match n {
        SettleNext::Asks(q, p) => stand_settle(s, q, setup, x, p),
        SettleNext::Ends(y) => after_settle(s, setup, y),
    }
}

// Released early: int_st and rx_len are read (mod.rs 666-667).
fn release(s: &mut State, setup: bool, x: Transfer) -> u64
    ensures { RunsOn result (λ t. finish setup (run concrete (after_nak x) t)) s.old s.new }
{
    stand_released(s, TRANSFER, setup, x)
}

fn then_nak(s: &mut State, setup: bool, x: Transfer, n: NakNext) -> u64
    requires { naks.Linked n }
    ensures { RunsOn result (λ t. finish setup (bind_out (naks.meaning x.st n t.0 t.1)
        (λ _ u. run concrete (after_nak x) u)))
        s.old s.new }
{
    match n {
        NakNext::Asks(q, p) => stand_nak(s, q, setup, x, p),
        NakNext::Ends => release(s, setup, x),
    }
}

pub fn after_naking(s: &mut State, setup: bool, x: Transfer, p: Nak, v: u32) -> u64
    requires { naks.fits_at p v ≡ true }
    ensures { RunsOn result (denote (Point.Nak setup x p) v) s.old s.new }
{
    let n = nak::nak_non_iso_resume(x.st, p, v);
    then_nak(s, setup, x, n)
}

// Is it NAKed before the release (mod.rs 663)?
fn naks_first(busy: bool, st: u8) -> bool
    ensures { result ≡ naks_first busy st }
{
    if busy {
        if status::is_sof(st) {
            return false;
        }
        return status::endpoint(st) != 0;
    }
    true
}

fn entered(busy: bool, st: u8, len: u16) -> Transfer
    ensures { result ≡ entered_as busy st len }
{
    Transfer {
        busy,
        st,
        len,
        late: false,
        len_ok: true,
    }
}

pub fn after_len(s: &mut State, setup: bool, busy: bool, st: u8, v: u32) -> u64
    requires { fits_in v 16 ≡ true }
    ensures { RunsOn result (denote (Point.Len setup busy st) v) s.old s.new }
{
    let x = entered(busy, st, short(v));
    if naks_first(busy, st) {
        let n = nak::nak_non_iso(s, st);
        match n {
            NakNext::Asks(q, p) => stand_nak(s, q, setup, x, p),
            NakNext::Ends => release(s, setup, x),
        }
    } else {
        release(s, setup, x)
    }
}

pub fn after_st(s: &mut State, setup: bool, busy: bool, v: u32) -> u64
    requires { fits_in v 8 ≡ true }
    ensures { RunsOn result (denote (Point.St setup busy) v) s.old s.new }
{
    stand_len(s, setup, busy, byte(v))
}

pub fn after_mis(s: &mut State, setup: bool, v: u32) -> u64
    requires { fits_in v 8 ≡ true }
    ensures { RunsOn result (denote (Point.Mis setup) v) s.old s.new }
{
    let busy = !mis_status::sie_free(byte(v));
    stand_st(s, setup, busy)
}
