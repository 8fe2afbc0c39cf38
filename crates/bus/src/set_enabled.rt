// Endpoints enabled and disabled (mod.rs 1268-1330) one access at a time. Every function is total: any number is safe.
ghost use Rattle.std.specs.Prelude.{◌≡◌, Bool, true, false, cond, not, ◌&&◌, List, ℕ};
ghost use Rattle.regs.specs.ControlWord.{ACK, NYET, NAK, DATA0, word_of};
ghost use Rattle.state.specs.Driver.{Driver};
ghost use Rattle.state.specs.State.{view, saved};
ghost use Rattle.script.specs.Script.{run};
ghost use Rattle.script.specs.Bus as script;
ghost use Rattle.script_ops.specs.Means.{MeansFrom, MeansWithSlots};
ghost use Rattle.script_ops.specs.Concrete.{concrete, go};
ghost use Rattle.script_ops.specs.Records.{iso_out};
ghost use Rattle.bus.specs.declared.Point.TheVariants as Point;
ghost use Rattle.bus.specs.Points.{resultless, renewed_as, enabled_out, after_type, after_words, after_placed, denote};
ghost use Rattle.bus.specs.Points.{meaning, Linked, asked, Awaited};

use crate::iso_out_enable::after_switch;
use crate::points::{PLACED_IN, PLACED_OUT, SWITCH, point};
use crate::{Next, flag_of};
use regs::{Access, Dir, Reg, control_word, enables};
use script_ops::records::{iso_out, place};
use script_ops::rings::is_on;
use state::{EpState, State, load_ep, load_globals, set_ep_type, store_ep, store_paced};

// The record reset, and armed or not.
fn renew(s: &mut State, dir: Dir, e: u8, armed: u8)
    requires { iso_out (view s.old) dir e ≡ false }
    ensures s_after { view s.new ≡ renewed_as (view s.old) dir e armed }
    ensures s_unchanged { saved s.new ≡ saved s.old }
{
    let r = load_ep(s, dir, e);
    let mut t = state::by_loan(r);
    t.armed = armed;
    store_ep(s, dir, e, t);
}

// Not isochronous: armed as soon as it is enabled (mod.rs 1279-1282, 1296).
fn set_enabled_out(s: &mut State, e: u8, on: bool) -> Next
    requires { iso_out (view s.old) Dir.Out e ≡ false }
    ensures { MeansFrom (meaning result) (Linked result) (run concrete (enabled_out e on)) s.old
        s.new }
{
    renew(s, Dir::Out, e, flag_of(on));
    let at = place(s, Dir::Out, e);
    Next::Asks(
        Access::Receive(e, at),
        point(PLACED_OUT, Dir::Out, on, false, 0, e),
    )
}

fn set_enabled_in(s: &mut State, e: u8, on: bool) -> Next
    ensures { MeansFrom (meaning result) (Linked result) (run concrete (resultless (script.set_enabled Dir.In e on)))
        s.old s.new }
{
    let r = load_ep(s, Dir::In, e);
    let iso = is_on(r.iso);
    renew(s, Dir::In, e, 0);
    store_paced(s, e, EpState::NO_FRAME);
    let at = place(s, Dir::In, e);
    Next::Asks(
        Access::Transmit(e, at),
        point(PLACED_IN, Dir::Out, on, iso, 0, e),
    )
}

// Begins `endpoint_set_enabled` (mod.rs 1268-1330): enables or disables one direction.
pub fn endpoint_set_enabled(s: &mut State, buf: &mut [u8], dir: Dir, e: u8, on: bool) -> Next
    ensures { MeansWithSlots (meaning result) (Linked result) (run concrete (resultless (script.set_enabled dir e on)))
        s.old buf.old s.new buf.new }
{
    match dir {
        Dir::Out => {
            if iso_out(s, Dir::Out, e) {
                let q = after_switch(s, buf, e, on, 19);
                return Next::Asks(q, point(SWITCH, Dir::Out, on, false, 18, e));
            }
            set_enabled_out(s, e, on)
        }
        Dir::In => set_enabled_in(s, e, on),
    }
}

// The word of an OUT (mod.rs 1298-1309).
fn out_word(on: bool) -> u8
    ensures { result ≡ word_of (cond on ACK NAK) DATA0 true }
{
    if on {
        return control_word::word_of(control_word::ACK, control_word::DATA0, true);
    }
    control_word::word_of(control_word::NAK, control_word::DATA0, true)
}

// After a bulk OUT's receive address: writes its control word.
pub fn after_placed_out(e: u8, on: bool) -> Access
    ensures by_index { (v : ℕ) (d : Driver) (b : List ℕ) → asked result (Point.Words Dir.Out e false on) d b
        ≡ denote (Point.PlacedOut e on) v (d, b) }
    ensures awaited { Awaited result (Point.Words Dir.Out e false on) }
{
    let word = out_word(on);
    Access::Write(Reg::EpRxCtrl, e, word as u32)
}

// After an IN's transmit address: writes its length 0.
pub fn after_placed_in(e: u8) -> Access
    ensures b_value { (iso on : Bool) (v : ℕ) (d : Driver) (b : List ℕ) → asked result (Point.NoLength e iso on) d b
        ≡ denote (Point.PlacedIn e iso on) v (d, b) }
    ensures awaited { (iso on : Bool) → Awaited result (Point.NoLength e iso on) }
{
    Access::Write(Reg::EpTLen, e, 0)
}

fn both(iso: bool, on: bool) -> bool
    ensures { result ≡ (iso && on) }
{
    if iso {
        return on;
    }
    false
}

// The word of an IN (mod.rs 1317-1323).
fn in_word(iso: bool, on: bool) -> u8
    ensures { result ≡ word_of (cond (iso && on) NYET NAK) DATA0 (not iso) }
{
    if both(iso, on) {
        return control_word::word_of(control_word::NYET, control_word::DATA0, !iso);
    }
    control_word::word_of(control_word::NAK, control_word::DATA0, !iso)
}

// After an IN's length 0: writes its control word.
pub fn after_no_length(e: u8, iso: bool, on: bool) -> Access
    ensures b_value { (d : Driver) (b : List ℕ) → asked result (Point.Words Dir.In e iso on) d b
        ≡ go (after_placed e iso on) d b }
    ensures awaited { Awaited result (Point.Words Dir.In e iso on) }
{
    let word = in_word(iso, on);
    Access::Write(Reg::EpTxCtrl, e, word as u32)
}

// ep_type's bit, then ep_config's (mod.rs 1310-1311, 1324-1325).
pub fn after_words(s: &mut State, dir: Dir, e: u8, iso: bool, on: bool) -> Access
    ensures by_index { (b : List ℕ) → asked result (Point.Type dir e on) (view s.new) b
        ≡ go (after_words dir e iso on) (view s.old) b }
    ensures s_unchanged { saved s.new ≡ saved s.old }
    ensures awaited { Awaited result (Point.Type dir e on) }
{
    let g = load_globals(s);
    let bit = both(iso, on);
    let word = enables::with_on(g.ep_type, dir, e, bit);
    set_ep_type(s, word);
    Access::Write(Reg::EpType, 0, word)
}

// After ep_type: writes ep_config, and wakes the endpoint's task at the end.
pub fn after_type(s: &mut State, dir: Dir, e: u8, on: bool) -> Access
    ensures by_index { (b : List ℕ) → asked result (Point.Woken dir e) (view s.new) b
        ≡ go (after_type dir e on) (view s.old) b }
    ensures s_unchanged { saved s.new ≡ saved s.old }
    ensures awaited { Awaited result (Point.Woken dir e) }
{
    script_ops::records::set_enabled(s, dir, e, on);
    let g = load_globals(s);
    Access::Write(Reg::EpConfig, 0, g.ep_config)
}
