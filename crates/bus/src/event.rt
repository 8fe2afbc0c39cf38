ghost use Rattle.std.specs.Prelude.{◌≡◌, Bool, false, cond, List, ℕ, ◌+◌, ◌<◌, ◌≤◌};
ghost use Rattle.regs.specs.ControlWord.{NAK, DATA0, word_of};
ghost use Rattle.state.specs.Driver.{Driver};
ghost use Rattle.state.specs.State.{view, saved};
ghost use Rattle.script.specs.Script.{run};
ghost use Rattle.script.specs.Bus as script;
ghost use Rattle.script_ops.specs.Means.{MeansFrom};
ghost use Rattle.script_ops.specs.Concrete.{concrete, go};
ghost use Rattle.bus.specs.declared.Point.TheVariants as Point;
ghost use Rattle.bus.specs.Points.{after_reset, after_naked, after_released, denote, meaning, Follows, Linked};
ghost use Rattle.bus.specs.Points.{asked, Awaited};

use crate::Next;
use crate::points::{FLAGS, point};
use regs::{Access, Dir, Reg, control_word, flags, int_en};
use script_ops::records::wake_all;
use script_ops::rings::is_on;
use script_ops::slots::reset_all;
use state::{State, load_globals, set_ep_config, set_ep_type, set_int_en, store_globals};

// Begins `Bus::poll` (mod.rs 1231-1266): power, then a bus reset, then suspend and resume.
pub fn poll(s: &mut State) -> Next
    ensures { MeansFrom (meaning result) (Linked result) (run concrete script.poll) s.old s.new }
{
    let mut g = load_globals(s);
    if is_on(g.power) {
        return Next::Asks(
            Access::Read(Reg::IntFg, 0),
            point(FLAGS, Dir::Out, false, false, 0, 0),
        );
    }
    g.power = 1;
    store_globals(s, g);
    Next::Ends(1)
}

// The suspend interrupt is enabled again (mod.rs 1254); the event is by the status.
pub fn after_released(s: &mut State) -> Access
    ensures b_after { (down : Bool) (b : List ℕ) →
        asked result (Point.Event (cond down 3 4)) (view s.new) b
        ≡ go (after_released down) (view s.old) b }
    ensures s_unchanged { saved s.new ≡ saved s.old }
    ensures by_index { (n : ℕ) → Awaited result (Point.Event n) }
{
    let g = load_globals(s);
    let word = int_en::with_suspend(g.int_en, true);
    set_int_en(s, word);
    Access::Write(Reg::IntEn, 0, word as u32)
}

// NAK, DATA0.
fn nak_word() -> u32
    ensures { result ≡ word_of NAK DATA0 false }
{
    control_word::word_of(control_word::NAK, control_word::DATA0, false) as u32
}

// `bus_reset` (mod.rs 1187-1221): EP0's OUT answers ACK, all else NAK.
pub fn after_address() -> Access
    ensures by_index { (v : ℕ) (d : Driver) (b : List ℕ) → asked result Point.Ep0Out d b ≡ denote Point.Address v (d, b) }
    ensures awaited { Awaited result Point.Ep0Out }
{
    let word = control_word::word_of(control_word::ACK, control_word::DATA0, false);
    Access::Write(Reg::EpRxCtrl, 0, word as u32)
}

// In a bus reset, after EP0's OUT was set to ACK: sets EP0's IN to NAK.
pub fn after_ep0_out() -> Access
    ensures by_index { (v : ℕ) (d : Driver) (b : List ℕ) → asked result (Point.Naked 0) d b
        ≡ denote Point.Ep0Out v (d, b) }
    ensures awaited { Awaited result (Point.Naked 0) }
{
    Access::Write(Reg::EpTxCtrl, 0, nak_word())
}

// In a bus reset, after IN e was set to NAK: sets OUT e to NAK.
pub fn after_nak_in(e: u8) -> Access
    ensures by_index { (v : ℕ) (d : Driver) (b : List ℕ) → asked result (Point.Naked e) d b
        ≡ denote (Point.NakIn e) v (d, b) }
    ensures awaited { Awaited result (Point.Naked e) }
{
    Access::Write(Reg::EpRxCtrl, e, nak_word())
}

// In a bus reset, after both directions of e were set to NAK: goes on with the next endpoint.
pub fn after_naked(e: u8) -> Access
    requires { e < 15 }
    ensures b_value { (d : Driver) (b : List ℕ) → asked result (Point.NakIn (e + 1)) d b ≡ go (after_naked e) d b }
    ensures awaited { Awaited result (Point.NakIn (e + 1)) }
{
    Access::Write(Reg::EpTxCtrl, e + 1, nak_word())
}

// After the last, the row that disables them all.
pub fn after_last(s: &mut State) -> Access
    ensures by_index { (e : ℕ) → 15 ≤ e → (b : List ℕ) →
        asked result Point.Disabled (view s.new) b ≡ go (after_naked e) (view s.old) b }
    ensures s_unchanged { saved s.new ≡ saved s.old }
    ensures awaited { Awaited result Point.Disabled }
{
    set_ep_config(s, 0);
    Access::Write(Reg::EpConfig, 0, 0)
}

// In a bus reset, after ep_config was cleared: clears ep_type.
pub fn after_disabled(s: &mut State) -> Access
    ensures follows { Follows Point.Disabled result Point.Untyped s.old s.new }
    ensures s_unchanged { saved s.new ≡ saved s.old }
    ensures awaited { Awaited result Point.Untyped }
{
    set_ep_type(s, 0);
    Access::Write(Reg::EpType, 0, 0)
}

// In a bus reset, after ep_type was cleared: clears ep_buf_mod.
pub fn after_untyped() -> Access
    ensures by_index { (v : ℕ) (d : Driver) (b : List ℕ) → asked result Point.Single d b ≡ denote Point.Untyped v (d, b) }
    ensures awaited { Awaited result Point.Single }
{
    Access::Write(Reg::EpBufMod, 0, 0)
}

// Every record is reset in the call that clears the flag (mod.rs 1213-1216, 1245).
pub fn after_single(s: &mut State) -> Access
    ensures follows { Follows Point.Single result Point.Reset s.old s.new }
    ensures s_unchanged { saved s.new ≡ saved s.old }
    ensures awaited { Awaited result Point.Reset }
{
    reset_all(s);
    Access::Write(Reg::IntFg, 0, flags::BUS_RST)
}

// All are woken, and the reset interrupt is enabled again (mod.rs 1218-1220, 1247).
pub fn after_reset(s: &mut State) -> Access
    ensures by_index { (b : List ℕ) → asked result (Point.Event 2) (view s.new) b
        ≡ go after_reset (view s.old) b }
    ensures s_unchanged { saved s.new ≡ saved s.old }
    ensures awaited { Awaited result (Point.Event 2) }
{
    wake_all(s);
    let g = load_globals(s);
    let word = int_en::with_bus_rst(g.int_en, true);
    set_int_en(s, word);
    Access::Write(Reg::IntEn, 0, word as u32)
}
