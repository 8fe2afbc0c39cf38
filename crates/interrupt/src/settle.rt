ghost use Rattle.std.specs.Prelude.{◌≡◌, true, false};
ghost use Rattle.regs.specs.Registers.{fits_in};
ghost use Rattle.script.specs.Script.{run};
ghost use Rattle.script.specs.Handler as script;
ghost use Rattle.script_ops.specs.Means.{Means, MeansAt};
ghost use Rattle.script_ops.specs.Concrete.{concrete};
ghost use Rattle.script_ops.specs.Records.{plain_of};
ghost use Rattle.interrupt.specs.Settle.{after_st, after_flags, after_mis, denote, meaning, Linked, fits_at};

use crate::nak;
use crate::nak::{Nak, NakNext};
use crate::wait::{LOOKS, byte, over, short};
use regs::registers::fits;
use regs::{Access, Dir, Reg, flags, mis_status, status};
use script::Transfer;
use script_ops::rings::is_on;
use state::{EpState, State, load_ep};

// Where a transfer that is settled stands.
#[derive(Clone, Copy)]
pub enum Settle {
    IsoLook(u16), // an isochronous OUT: mis_st is read; how many looks may follow
    IsoSt, // int_st is read
    IsoLen(u8), // rx_len is read; what int_st was
    BulkLook(u16), // bulk or interrupt: mis_st is read; how many looks may follow
    BulkLen, // rx_len is read
    Mis, // another: mis_st is read
    Flags, // int_fg is read
    St, // int_st is read
    Nak(u8, Nak), // in `nak_non_iso` of that int_st
}

// The next access, or the transfer as it is settled.
#[derive(Clone, Copy)]
pub enum SettleNext {
    Asks(Access, Settle),
    Ends(Transfer),
}

// An isochronous OUT is on the bus (mod.rs 673).
fn waits_for_iso(x: Transfer, r: EpState) -> bool
    ensures { result ≡ script.waits_for_iso x (plain_of r) }
{
    if !x.busy {
        return false;
    }
    if !status::is_out(x.st) {
        return false;
    }
    is_on(r.iso)
}

// A bulk or interrupt transaction is (mod.rs 688-694).
fn waits_for_bulk(x: Transfer, r: EpState) -> bool
    ensures { result ≡ script.waits_for_bulk x (plain_of r) }
{
    if !x.busy {
        return false;
    }
    if status::endpoint(x.st) == 0 {
        return false;
    }
    if status::is_out(x.st) {
        return true;
    }
    if !status::is_in(x.st) {
        return false;
    }
    !is_on(r.iso)
}

// A transfer is settled (mod.rs 668-715): what was on the bus is waited for, or looked at once.
pub fn begin(s: &State, x: Transfer) -> SettleNext
    ensures { MeansAt (meaning x result) (Linked result) (run concrete (script.settle {i = true} x)) s.now }
{
    let ep = status::endpoint(x.st);
    let o = load_ep(s, Dir::Out, ep);
    if waits_for_iso(x, o) {
        return SettleNext::Asks(Access::Read(Reg::MisSt, 0), Settle::IsoLook(LOOKS));
    }
    let n = load_ep(s, Dir::In, ep);
    if waits_for_bulk(x, n) {
        return SettleNext::Asks(Access::Read(Reg::MisSt, 0), Settle::BulkLook(LOOKS));
    }
    if x.busy {
        return SettleNext::Asks(Access::Read(Reg::MisSt, 0), Settle::Mis);
    }
    SettleNext::Ends(x)
}

fn after_iso_look(x: Transfer, n: u16, v: u32) -> SettleNext
    requires { fits_in v 8 ≡ true }
    ensures { Means (meaning x result) (Linked result) (denote x (Settle.IsoLook n) v) }
{
    if over(byte(v), n) {
        return SettleNext::Asks(Access::Read(Reg::IntSt, 0), Settle::IsoSt);
    }
    SettleNext::Asks(Access::Read(Reg::MisSt, 0), Settle::IsoLook(n - 1))
}

// rx_len's packet is the one that was on the bus (mod.rs 681-683).
fn same_out(x: Transfer, now: u8, len: u16) -> bool
    ensures { result ≡ script.same_out x now len }
{
    if len == 0 {
        return false;
    }
    if !status::is_out(now) {
        return false;
    }
    status::endpoint(now) == status::endpoint(x.st)
}

fn late_taken(x: Transfer, now: u8, len: u16) -> Transfer
    ensures { result ≡ script.late_taken x now len }
{
    Transfer {
        busy: false,
        st: x.st,
        len,
        late: true,
        len_ok: same_out(x, now, len),
    }
}

fn after_bulk_look(x: Transfer, n: u16, v: u32) -> SettleNext
    requires { fits_in v 8 ≡ true }
    ensures { Means (meaning x result) (Linked result) (denote x (Settle.BulkLook n) v) }
{
    if over(byte(v), n) {
        return SettleNext::Asks(Access::Read(Reg::RxLen, 0), Settle::BulkLen);
    }
    SettleNext::Asks(Access::Read(Reg::MisSt, 0), Settle::BulkLook(n - 1))
}

// An OUT that completed after the release set rx_len again (mod.rs 703-707).
fn waited(x: Transfer, len: u16) -> Transfer
    ensures { result ≡ script.waited x len }
{
    let mut y = x;
    y.busy = false;
    if len == 0 {
        return y;
    }
    y.len = len;
    y
}

fn after_mis(x: Transfer, v: u32) -> SettleNext
    requires { fits_in v 8 ≡ true }
    ensures { Means (meaning x result) (Linked result) (run concrete (after_mis x v)) }
{
    if mis_status::sie_free(byte(v)) {
        return SettleNext::Asks(Access::Read(Reg::IntFg, 0), Settle::Flags);
    }
    SettleNext::Ends(x)
}

fn after_flags(x: Transfer, v: u32) -> SettleNext
    requires { fits_in v 8 ≡ true }
    ensures { Means (meaning x result) (Linked result) (run concrete (after_flags x v)) }
{
    if flags::transfer(byte(v)) {
        return SettleNext::Ends(x);
    }
    SettleNext::Asks(Access::Read(Reg::IntSt, 0), Settle::St)
}

// It completed before the release, which took its flag (mod.rs 708-714).
fn retaken(x: Transfer, st: u8) -> Transfer
    ensures { result ≡ script.retaken x st }
{
    Transfer {
        busy: false,
        st,
        len: x.len,
        late: x.late,
        len_ok: false,
    }
}

fn after_st(s: &State, x: Transfer, v: u32) -> SettleNext
    requires { fits_in v 8 ≡ true }
    ensures { MeansAt (meaning x result) (Linked result) (run concrete (after_st x v)) s.now }
{
    let st = byte(v);
    let n = nak::nak_non_iso(s, st);
    match n {
        NakNext::Asks(q, p) => SettleNext::Asks(q, Settle::Nak(st, p)),
        NakNext::Ends => SettleNext::Ends(retaken(x, st)),
    }
}

fn after_nak(x: Transfer, st: u8, p: Nak, v: u32) -> SettleNext
    requires { fits_at (Settle.Nak st p) v ≡ true }
    ensures { Means (meaning x result) (Linked result) (denote x (Settle.Nak st p) v) }
{
    let n = nak::nak_non_iso_resume(st, p, v);
    match n {
        NakNext::Asks(q, p2) => SettleNext::Asks(q, Settle::Nak(st, p2)),
        NakNext::Ends => SettleNext::Ends(retaken(x, st)),
    }
}

pub fn resume(s: &State, x: Transfer, p: Settle, v: u32) -> SettleNext
    requires { fits_at p v ≡ true }
    ensures { MeansAt (meaning x result) (Linked result) (denote x p v) s.now }
{
    match p {
        Settle::IsoLook(n) => after_iso_look(x, n, v),
        Settle::IsoSt => SettleNext::Asks(Access::Read(Reg::RxLen, 0), Settle::IsoLen(byte(v))),
        Settle::IsoLen(now) => SettleNext::Ends(late_taken(x, now, short(v))),
        Settle::BulkLook(n) => after_bulk_look(x, n, v),
        Settle::BulkLen => SettleNext::Ends(waited(x, short(v))),
        Settle::Mis => after_mis(x, v),
        Settle::Flags => after_flags(x, v),
        Settle::St => after_st(s, x, v),
        Settle::Nak(st, q) => after_nak(x, st, q, v),
    }
}

pub fn fits_at(p: Settle, v: u32) -> bool
    ensures { result ≡ fits_at p v }
{
    match p {
        Settle::IsoLook(_) | Settle::BulkLook(_) | Settle::Mis => fits(v, 2),
        Settle::IsoSt | Settle::St => fits(v, 7),
        Settle::IsoLen(_) | Settle::BulkLen => fits(v, 16),
        Settle::Flags => fits(v, 6),
        Settle::Nak(_st, q) => nak::fits_at(q, v),
    }
}
