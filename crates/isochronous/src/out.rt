// Isochronous OUT arrivals (`iso_out_check`, mod.rs 461-512) one access at a time. Every function is total: any number
// is safe.
ghost use Rattle.std.specs.Prelude.{◌≡◌, Bool, true, false, ℕ};
ghost use Rattle.regs.specs.Registers.{fits_in};
ghost use Rattle.state.specs.State.{view};
ghost use Rattle.script.specs.declared.Transfer.{Transfer};
ghost use Rattle.script.specs.Script.{run};
ghost use Rattle.script.specs.IsoOut.{arriving, entry, iso_out_check};
ghost use Rattle.script_ops.specs.Means.{MeansWithSlots};
ghost use Rattle.script_ops.specs.Concrete.{concrete, go};
ghost use Rattle.isochronous.specs.Points.{walk, arrival, denote, meaning, found_as, Linked, fits_at};

use bits::{next_endpoint, rest_of};
use regs::enables::out_enabled;
use regs::registers::fits;
use regs::status::{endpoint, is_out, tog_ok};
use regs::{Access, Dir, Reg};
use script::Transfer;
use script_ops::records::wake;
use script_ops::rings::{changed, marked};
use script_ops::slots::arrive;
use state::{State, load_globals};

// Where the check stands: the endpoint, and the mask of those behind it.
#[derive(Clone, Copy)]
pub enum Check {
    St(u8, u16), // int_st is read
    Armed(u8, u16), // the receive address is handed out
}

// The next access with the point at which the check stops, or its end.
#[derive(Clone, Copy)]
pub enum CheckNext {
    Asks(Access, Check),
    Ends,
}

// The first endpoint of a mask whose slot has changed, with the mask of those behind it.
#[derive(Clone, Copy)]
pub enum Found {
    At(u8, u16),
    Nothing,
}

// Does the status show OUT for this endpoint?
fn arriving(st: u8, e: u8) -> bool
    ensures { result ≡ arriving st e }
{
    if is_out(st) {
        return endpoint(st) == e;
    }
    false
}

// Is `entry` (mod.rs 792) for this endpoint?
fn entry(x: Transfer, iso: bool, e: u8) -> bool
    ensures { result ≡ entry x iso e }
{
    if x.busy {
        return false;
    }
    if x.len_ok {
        if iso {
            if tog_ok(x.st) {
                return arriving(x.st, e);
            }
            return false;
        }
        return false;
    }
    false
}

// The endpoints whose slot is as it was armed are passed over (mod.rs 474-476).
fn find(s: &State, buf: &[u8], mask: u16) -> Found
    ensures { (x : Transfer) (iso : Bool) → go (walk x iso mask) (view s.now) buf.now
        ≡ found_as x iso result (
          view s.now,
          buf.now,
        ) }
{
    let mut m = mask;
    while m != 0 {
        let e = next_endpoint(m);
        m = rest_of(m);
        if changed(s, buf, e) {
            return Found::At(e, m);
        }
    }
    Found::Nothing
}

// The packet is admitted or turned away, and the head's slot armed (mod.rs 491-508).
fn arm(s: &mut State, buf: &mut [u8], e: u8, m: u16, len: u16) -> CheckNext
    ensures { (x : Transfer) (iso : Bool) → MeansWithSlots (meaning x iso result) (Linked result)
        (run concrete (arrival x iso e len m))
        s.old buf.old s.new buf.new }
{
    let at = arrive(s, buf, e, len);
    CheckNext::Asks(Access::Receive(e, at), Check::Armed(e, m))
}

// Lowest number first; where the interrupt's length is the packet's, no status is read (mod.rs 468-485).
fn walk_on(s: &mut State, buf: &mut [u8], x: Transfer, iso: bool, m: u16) -> CheckNext
    ensures { MeansWithSlots (meaning x iso result) (Linked result) (run concrete (walk x iso m))
        s.old buf.old s.new buf.new }
{
    let f = find(s, buf, m);
    match f {
        Found::At(e, rest) => {
            if entry(x, iso, e) {
                return arm(s, buf, e, rest, x.len);
            }
            CheckNext::Asks(Access::Read(Reg::IntSt, 0), Check::St(e, rest))
        }
        Found::Nothing => CheckNext::Ends,
    }
}

// A disabled endpoint's slot still holds its last packet: it is not walked (mod.rs 466-467).
pub fn iso_out_check(s: &mut State, buf: &mut [u8], x: Transfer, iso: bool) -> CheckNext
    ensures { MeansWithSlots (meaning x iso result) (Linked result) (run concrete (iso_out_check {i = true} x iso))
        s.old buf.old s.new buf.new }
{
    let g = load_globals(s);
    let mask = out_enabled(g.ep_config, g.iso_out_eps);
    walk_on(s, buf, x, iso, mask)
}

// A reading of a byte or less.
fn byte(v: u32) -> u8
    requires { fits_in v 8 ≡ true }
    ensures { result ≡ v }
{
    v as u8
}

// While its OUT is the last token the packet may still be arriving; else the marks show its length (mod.rs 482-488).
fn after_st(
    s: &mut State,
    buf: &mut [u8],
    x: Transfer,
    iso: bool,
    e: u8,
    m: u16,
    v: u32,
) -> CheckNext
    requires { fits_in v 8 ≡ true }
    ensures { MeansWithSlots (meaning x iso result) (Linked result) (denote x iso (Check.St e m) v)
        s.old buf.old s.new buf.new }
{
    let st = byte(v);
    if arriving(st, e) {
        return walk_on(s, buf, x, iso, m);
    }
    let len = marked(s, buf, e);
    arm(s, buf, e, m, len)
}

// The endpoint is woken, and the walk goes on (mod.rs 510).
fn after_armed(s: &mut State, buf: &mut [u8], x: Transfer, iso: bool, e: u8, m: u16) -> CheckNext
    ensures { (v : ℕ) → MeansWithSlots (meaning x iso result) (Linked result) (denote x iso (Check.Armed e m) v)
        s.old buf.old s.new buf.new }
{
    wake(s, Dir::Out, e);
    walk_on(s, buf, x, iso, m)
}

// Row 16 turned round: where a reading is awaited, has it no bit above its register's width?
pub fn fits_at(p: Check, v: u32) -> bool
    ensures { result ≡ fits_at p v }
{
    match p {
        Check::St(_e, _m) => fits(v, 7),
        Check::Armed(_e, _m) => true,
    }
}

// The next access of the check that stands at `p`, now that `v` was brought.
pub fn iso_out_check_resume(
    s: &mut State,
    buf: &mut [u8],
    x: Transfer,
    iso: bool,
    p: Check,
    v: u32,
) -> CheckNext
    requires { fits_at p v ≡ true }
    ensures { MeansWithSlots (meaning x iso result) (Linked result) (denote x iso p v)
        s.old buf.old s.new buf.new }
{
    match p {
        Check::St(e, m) => after_st(s, buf, x, iso, e, m, v),
        Check::Armed(e, m) => after_armed(s, buf, x, iso, e, m),
    }
}
