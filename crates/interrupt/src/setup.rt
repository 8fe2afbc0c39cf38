// A new control transfer (mod.rs 803-818).
ghost use Rattle.std.specs.Prelude.{◌≡◌, false};
ghost use Rattle.regs.specs.Flags.{SETUP_ACT};
ghost use Rattle.state.specs.Driver.{ep_on, with_on, with_globals};
ghost use Rattle.state.specs.State.{view, saved};
ghost use Rattle.script.specs.Tree.{asks};
ghost use Rattle.script.specs.Script.{run};
ghost use Rattle.script.specs.Statics.{with_ready, with_armed, with_setup};
ghost use Rattle.script_ops.specs.Concrete.{concrete};
ghost use Rattle.script_ops.specs.Records.{plain_of, merged, merged_globals};
ghost use Rattle.interrupt.specs.Continuations.{resultless, nak_word, after_setup_released, after_setup_tx};
ghost use Rattle.interrupt.specs.Continuations.{after_transfer};
ghost use Rattle.interrupt.specs.declared.Point.TheVariants as Point;
ghost use Rattle.interrupt.specs.Stands.{RunsOn, RunsOnFrom, RunsOnFromWith};

use crate::stands::{stand_setup_released, stand_setup_rx, stand_setup_tx, stop};
use regs::{Access, Dir, Reg, control_word, flags};
use script_ops::records::wake;
use script_ops::rings::setup_word;
use state::{State, load_ep, load_globals, store_ep, store_globals};

// NAK, DATA0.
fn nak_word() -> u32
    ensures { result ≡ nak_word }
{
    control_word::word_of(control_word::NAK, control_word::DATA0, false) as u32
}

// Whatever EP0 was doing is over.
pub fn after_transfer(s: &mut State, setup: bool) -> u64
    ensures { RunsOn result (run concrete (resultless (after_transfer setup))) s.old s.new }
{
    if setup {
        return stand_setup_rx(s, nak_word());
    }
    stop(s)
}

pub fn after_setup_rx(s: &mut State) -> u64
    ensures { RunsOnFrom result Point.SetupRx s.old s.new }
{
    stand_setup_tx(s, nak_word())
}

// EP0 in a direction: not ready, not armed.
fn clear(s: &mut State, d: Dir)
    ensures s_after { view s.new ≡ with_on (view s.old) d 0
        (merged (ep_on (view s.old) d 0) (with_armed 0
        (with_ready 0 (plain_of (ep_on (view s.old) d 0))))) }
    ensures s_unchanged { saved s.new ≡ saved s.old }
{
    let mut r = load_ep(s, d, 0);
    r.ready = 0;
    r.armed = 0;
    store_ep(s, d, 0, r);
}

fn keep(s: &mut State, low: u32, high: u32)
    ensures s_after { view s.new ≡ with_globals (view s.old)
        (merged_globals (view s.old).globals (with_setup 1 low high (view s.old).globals)) }
    ensures s_unchanged { saved s.new ≡ saved s.old }
{
    let mut g = load_globals(s);
    g.setup_ready = 1;
    g.setup_low = low;
    g.setup_high = high;
    store_globals(s, g);
}

// The packet is taken, EP0 is idle: what is left is the access that clears the flag.
fn take(s: &mut State, buf: &[u8])
    ensures t_after { asks (Access.Write Reg.IntFg 0 SETUP_ACT) (
      view s.new,
      buf.now,
    ) (λ _ t. run concrete (resultless after_setup_released) t)
        ≡ run concrete (resultless after_setup_tx) (view s.old, buf.now) }
    ensures s_unchanged { saved s.new ≡ saved s.old }
{
    let low = setup_word(s, buf, 0);
    let high = setup_word(s, buf, 1);
    clear(s, Dir::Out);
    clear(s, Dir::In);
    keep(s, low, high);
}

// The packet is taken in the call that clears the flag.
pub fn after_setup_tx(s: &mut State, buf: &[u8]) -> u64
    ensures { RunsOnFromWith result Point.SetupTx s.old buf.now s.new
        buf.now }
{
    take(s, buf);
    stand_setup_released(s, flags::SETUP_ACT)
}

pub fn after_setup_released(s: &mut State) -> u64
    ensures { RunsOnFrom result Point.SetupReleased s.old s.new }
{
    wake(s, Dir::Out, 0);
    wake(s, Dir::In, 0);
    stop(s)
}
