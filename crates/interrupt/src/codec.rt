// The parts of an interrupt's point as numbers, and back from them.
ghost use Rattle.std.specs.Prelude.{◌≡◌};
ghost use Rattle.interrupt.specs.Codec.{dir_of, inner, walked, looking, none, on_dir, nak_as, nak_of, settle_as};
ghost use Rattle.interrupt.specs.Codec.{settle_of};
ghost use Rattle.interrupt.specs.Codec.{toggled_as, toggled_of, complete_as, complete_of, sof_as, sof_of, late_as};
ghost use Rattle.interrupt.specs.Codec.{late_of, check_as, check_of, code, early};

use crate::nak::Nak;
use crate::settle::Settle;
use crate::sites;
use crate::toggled::Toggled;
use isochronous::complete::Complete;
use isochronous::late::Late;
use isochronous::out::Check;
use isochronous::sof::Sof;
use regs::Dir;
use script::Transfer;
use script_ops::points::{dir_as, flag_of};
use state::Saved;

// An inner point's numbers, with the isochronous flag or a status.
#[derive(Clone, Copy)]
pub struct Numbers {
    pub sub: u8,
    pub now: u8,
    pub ep: u8,
    pub eps: u16,
    pub n: u16,
}

pub fn dir_of(n: u8) -> Dir
    ensures { result ≡ dir_of n }
{
    if n == 0 { Dir::Out } else { Dir::In }
}

fn inner(sub: u8, now: u8, ep: u8, eps: u16, n: u16) -> Numbers
    ensures { result ≡ inner sub now ep eps n }
{
    Numbers {
        sub,
        now,
        ep,
        eps,
        n,
    }
}

// Of a walk: its endpoint, and the mask of those left.
fn walked(sub: u8, iso: bool, e: u8, m: u16) -> Numbers
    ensures { result ≡ walked sub iso e m }
{
    inner(sub, flag_of(iso), e, m, 0)
}

// Of a transfer's direction: how many looks may follow.
fn looking(sub: u8, d: Dir, iso: bool, n: u16) -> Numbers
    ensures { result ≡ looking sub d iso n }
{
    inner(sub, flag_of(iso), dir_as(d), 0, n)
}

pub fn none(iso: bool) -> Numbers
    ensures { result ≡ none iso }
{
    walked(0, iso, 0, 0)
}

pub fn on_dir(d: Dir, iso: bool) -> Numbers
    ensures { result ≡ on_dir d iso }
{
    looking(0, d, iso, 0)
}

pub fn nak_as(st: u8, p: Nak) -> Numbers
    ensures { result ≡ nak_as st p }
{
    match p {
        Nak::Word(d) => match d {
            Dir::Out => inner(sites::NAK_OUT, st, 0, 0, 0),
            Dir::In => inner(sites::NAK_IN, st, 0, 0, 0),
        },
        Nak::Wrote => inner(sites::NAK_WROTE, st, 0, 0, 0),
    }
}

pub fn nak_of(sub: u8) -> Nak
    ensures { result ≡ nak_of sub }
{
    match sub {
        sites::NAK_OUT => Nak::Word(Dir::Out),
        sites::NAK_IN => Nak::Word(Dir::In),
        _ => Nak::Wrote,
    }
}

pub fn settle_as(p: Settle) -> Numbers
    ensures { result ≡ settle_as p }
{
    match p {
        Settle::IsoLook(n) => inner(sites::SETTLE_ISO_LOOK, 0, 0, 0, n),
        Settle::IsoSt => inner(sites::SETTLE_ISO_ST, 0, 0, 0, 0),
        Settle::IsoLen(now) => inner(sites::SETTLE_ISO_LEN, now, 0, 0, 0),
        Settle::BulkLook(n) => inner(sites::SETTLE_BULK_LOOK, 0, 0, 0, n),
        Settle::BulkLen => inner(sites::SETTLE_BULK_LEN, 0, 0, 0, 0),
        Settle::Mis => inner(sites::SETTLE_MIS, 0, 0, 0, 0),
        Settle::Flags => inner(sites::SETTLE_FLAGS, 0, 0, 0, 0),
        Settle::St => inner(sites::SETTLE_ST, 0, 0, 0, 0),
        Settle::Nak(st, q) => nak_as(st, q),
    }
}

pub fn settle_of(sub: u8, now: u8, n: u16) -> Settle
    ensures { result ≡ settle_of sub now n }
{
    match sub {
        sites::SETTLE_ISO_LOOK => Settle::IsoLook(n),
        sites::SETTLE_ISO_ST => Settle::IsoSt,
        sites::SETTLE_ISO_LEN => Settle::IsoLen(now),
        sites::SETTLE_BULK_LOOK => Settle::BulkLook(n),
        sites::SETTLE_BULK_LEN => Settle::BulkLen,
        sites::SETTLE_MIS => Settle::Mis,
        sites::SETTLE_FLAGS => Settle::Flags,
        sites::SETTLE_ST => Settle::St,
        _ => Settle::Nak(now, nak_of(sub)),
    }
}

pub fn toggled_as(d: Dir, iso: bool, p: Toggled) -> Numbers
    ensures { result ≡ toggled_as d iso p }
{
    match p {
        Toggled::Look(n) => looking(sites::TOGGLED_LOOK, d, iso, n),
        Toggled::Word => looking(sites::TOGGLED_WORD, d, iso, 0),
        Toggled::AckRead => looking(sites::TOGGLED_ACK_READ, d, iso, 0),
        Toggled::Acked => looking(sites::TOGGLED_ACKED, d, iso, 0),
    }
}

pub fn toggled_of(sub: u8, n: u16) -> Toggled
    ensures { result ≡ toggled_of sub n }
{
    match sub {
        sites::TOGGLED_LOOK => Toggled::Look(n),
        sites::TOGGLED_WORD => Toggled::Word,
        sites::TOGGLED_ACK_READ => Toggled::AckRead,
        _ => Toggled::Acked,
    }
}

pub fn complete_as(iso: bool, m: u16, p: Complete) -> Numbers
    ensures { result ≡ complete_as iso m p }
{
    match p {
        Complete::Sent(e) => walked(sites::SENT, iso, e, m),
        Complete::Loaded(e) => walked(sites::LOADED, iso, e, m),
    }
}

pub fn complete_of(sub: u8, e: u8) -> Complete
    ensures { result ≡ complete_of sub e }
{
    if sub == sites::SENT {
        Complete::Sent(e)
    } else {
        Complete::Loaded(e)
    }
}

pub fn sof_as(iso: bool, p: Sof) -> Numbers
    ensures { result ≡ sof_as iso p }
{
    match p {
        Sof::Mis(e, m) => walked(sites::SOF_MIS, iso, e, m),
        Sof::St(e, m) => walked(sites::SOF_ST, iso, e, m),
        Sof::Completing(m, q) => complete_as(iso, m, q),
        Sof::Callback => walked(sites::SOF_CALLBACK, iso, 0, 0),
    }
}

pub fn sof_of(sub: u8, e: u8, m: u16) -> Sof
    ensures { result ≡ sof_of sub e m }
{
    match sub {
        sites::SOF_MIS => Sof::Mis(e, m),
        sites::SOF_ST => Sof::St(e, m),
        sites::SOF_CALLBACK => Sof::Callback,
        _ => Sof::Completing(m, complete_of(sub, e)),
    }
}

pub fn late_as(iso: bool, p: Late) -> Numbers
    ensures { result ≡ late_as iso p }
{
    let m = p.rest;
    let q = p.completing;
    complete_as(iso, m, q)
}

pub fn late_of(sub: u8, e: u8, m: u16) -> Late
    ensures { result ≡ late_of sub e m }
{
    let completing = complete_of(sub, e);
    Late {
        rest: m,
        completing,
    }
}

pub fn check_as(iso: bool, p: Check) -> Numbers
    ensures { result ≡ check_as iso p }
{
    match p {
        Check::St(e, m) => walked(sites::CHECK_ST, iso, e, m),
        Check::Armed(e, m) => walked(sites::CHECK_ARMED, iso, e, m),
    }
}

pub fn check_of(sub: u8, e: u8, m: u16) -> Check
    ensures { result ≡ check_of sub e m }
{
    if sub == sites::CHECK_ST {
        Check::St(e, m)
    } else {
        Check::Armed(e, m)
    }
}

pub fn code(site: u8, setup: bool, x: Transfer, frame: u16, i: Numbers) -> Saved
    ensures { result ≡ code site setup x frame i }
{
    Saved {
        tag: 0,
        sub: i.sub,
        site,
        flag: flag_of(setup),
        busy: flag_of(x.busy),
        late: flag_of(x.late),
        len_ok: flag_of(x.len_ok),
        st: x.st,
        now: i.now,
        ep: i.ep,
        len: x.len,
        frame,
        eps: i.eps,
        n: i.n,
        value: 0,
    }
}

// Before there is a transfer: the flags or the status, and busy.
pub fn early(busy: bool, st: u8) -> Transfer
    ensures { result ≡ early busy st }
{
    Transfer {
        busy,
        st,
        len: 0,
        late: false,
        len_ok: false,
    }
}
