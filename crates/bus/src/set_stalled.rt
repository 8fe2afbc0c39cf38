// Stalls (mod.rs 1053-1106) one access at a time. Every function is total: any number is safe.
ghost use Rattle.std.specs.Prelude.{◌≡◌, true, false, List, ℕ};
ghost use Rattle.regs.specs.Registers.{fits_in};
ghost use Rattle.state.specs.Driver.{Driver};
ghost use Rattle.state.specs.State.{view, saved};
ghost use Rattle.script.specs.Script.{run};
ghost use Rattle.script.specs.Bus as script;
ghost use Rattle.script_ops.specs.Means.{Means, MeansFrom};
ghost use Rattle.script_ops.specs.Concrete.{concrete, go};
ghost use Rattle.script_ops.specs.Records.{plain_of};
ghost use Rattle.script.specs.Tree.{ends};
ghost use Rattle.bus.specs.declared.Point.TheVariants as Point;
ghost use Rattle.bus.specs.Points.{resultless, after_stall_word, after_restart, denote, meaning, Linked, asked};
ghost use Rattle.bus.specs.Points.{Awaited};

use crate::points::{RESTARTED, STALL_LEN, STALL_WORD, STALLED, WOKEN, point};
use crate::{Next, byte};
use regs::registers::ctrl_of;
use regs::{Access, Dir, Reg, control_word};
use script_ops::records::wake;
use script_ops::rings::is_on;
use state::{EpState, State, load_ep, store_ep};

// Begins `is_endpoint_stalled` (mod.rs 1101-1106): reads the endpoint's control word.
pub fn is_endpoint_stalled(dir: Dir, e: u8) -> Next
    ensures { Means (meaning result) (Linked result) (run concrete (script.is_endpoint_stalled {i = false} dir e)) }
{
    Next::Asks(
        Access::Read(ctrl_of(dir), e),
        point(STALLED, Dir::Out, false, false, 0, 0),
    )
}

// What was asked: is it?
pub fn after_stalled(v: u32) -> u16
    requires { fits_in v 8 ≡ true }
    ensures { (d : Driver) (b : List ℕ) → ends result (d, b) ≡ denote Point.Stalled v (d, b) }
{
    if control_word::is_stalled(byte(v)) {
        return 1;
    }
    0
}

// Un-stalled: DATA0, automatic but for EP0 and isochronous endpoints (mod.rs 1069-1091).
fn restarted(response: u8, e: u8, r: EpState) -> u8
    ensures { result ≡ script.restarted response e (plain_of r) }
{
    let iso = r.iso;
    if is_on(iso) {
        return control_word::word_of(control_word::NYET, control_word::DATA0, false);
    }
    control_word::word_of(response, control_word::DATA0, e != 0)
}

// A read still waiting stays armed.
fn restarted_out(e: u8, r: EpState) -> u8
    ensures { result ≡ script.restarted_out e (plain_of r) }
{
    if is_on(r.armed) {
        return restarted(control_word::ACK, e, r);
    }
    restarted(control_word::NAK, e, r)
}

fn restarted_in(e: u8, r: EpState) -> u8
    ensures { result ≡ script.restarted_in e (plain_of r) }
{
    restarted(control_word::NAK, e, r)
}

// The toggle restarts, and the control word.
fn restart(s: &mut State, dir: Dir, e: u8) -> Next
    ensures { MeansFrom (meaning result) (Linked result) (run concrete (resultless (script.set_stalled dir e false)))
        s.old s.new }
{
    let r = load_ep(s, dir, e);
    let mut t = r;
    t.tog = 0;
    store_ep(s, dir, e, t);
    match dir {
        Dir::Out => {
            let word = restarted_out(e, r);
            Next::Asks(
                Access::Write(Reg::EpRxCtrl, e, word as u32),
                point(WOKEN, Dir::Out, false, false, 0, e),
            )
        }
        Dir::In => {
            let word = restarted_in(e, r);
            let iso = is_on(r.iso);
            Next::Asks(
                Access::Write(Reg::EpTxCtrl, e, word as u32),
                point(RESTARTED, Dir::Out, false, iso, 0, e),
            )
        }
    }
}

// Begins `set_endpoint_stalled` (mod.rs 1053-1099): sets or clears a halt.
pub fn set_endpoint_stalled(s: &mut State, dir: Dir, e: u8, on: bool) -> Next
    ensures { MeansFrom (meaning result) (Linked result) (run concrete (resultless (script.set_stalled dir e on)))
        s.old s.new }
{
    if !on {
        return restart(s, dir, e);
    }
    match dir {
        Dir::Out => Next::Asks(
            Access::Read(Reg::EpRxCtrl, e),
            point(STALL_WORD, Dir::Out, false, false, 0, e),
        ),
        Dir::In => Next::Asks(
            Access::Write(Reg::EpTLen, e, 0),
            point(STALL_LEN, Dir::Out, false, false, 0, e),
        ),
    }
}

// After a stalled IN's length 0: reads its control word.
pub fn after_stall_len(e: u8) -> Access
    ensures by_index { (v : ℕ) (d : Driver) (b : List ℕ) → asked result (Point.StallWord Dir.In e) d b
        ≡ denote (Point.StallLen e) v (d, b) }
    ensures awaited { Awaited result (Point.StallWord Dir.In e) }
{
    Access::Read(Reg::EpTxCtrl, e)
}

// After the control word was read: writes it with STALL.
pub fn after_stall_word(dir: Dir, e: u8, v: u32) -> Access
    requires { fits_in v 8 ≡ true }
    ensures b_value { (d : Driver) (b : List ℕ) → asked result (Point.Woken dir e) d b ≡ go (after_stall_word dir e v) d b }
    ensures awaited { Awaited result (Point.Woken dir e) }
{
    let word = control_word::stall(byte(v));
    Access::Write(ctrl_of(dir), e, word as u32)
}

// A write waiting on the stalled endpoint finishes; its data is dropped (mod.rs 1093-1098). The endpoint is woken.
pub fn after_restart(s: &mut State, e: u8, iso: bool)
    ensures by_index { (b : List ℕ) → ends 0 (view s.new, b)
        ≡ go (after_restart e iso) (view s.old) b }
    ensures s_unchanged { saved s.new ≡ saved s.old }
{
    if iso {
        wake(s, Dir::In, e);
        return;
    }
    let mut r = load_ep(s, Dir::In, e);
    r.ready = 1;
    r.armed = 0;
    store_ep(s, Dir::In, e, r);
    wake(s, Dir::In, e);
}
