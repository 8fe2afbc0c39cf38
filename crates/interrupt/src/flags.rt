// The microframe, then the flags but the setup's (mod.rs 637-655).
ghost use Rattle.std.specs.Prelude.{◌≡◌, true, false};
ghost use Rattle.regs.specs.Registers.{fits_in};
ghost use Rattle.script.specs.Script.{run};
ghost use Rattle.script_ops.specs.Concrete.{concrete};
ghost use Rattle.interrupt.specs.Continuations.{resultless, after_frame, after_flags, after_bus_rst, after_suspend};
ghost use Rattle.interrupt.specs.Continuations.{after_fifo, after_host};
ghost use Rattle.interrupt.specs.declared.Point.TheVariants as Point;
ghost use Rattle.interrupt.specs.Stands.{RunsOn, RunsOnFrom};

use crate::setup::after_transfer;
use crate::stands::{stand_bus_rst, stand_fifo, stand_flags, stand_host, stand_mis, stand_suspend};
use crate::wait::{byte, short};
use frame::{Frame, microframe_index};
use regs::{Access, Reg, flags, int_en};
use script_ops::records::wake_bus;
use state::{State, load_globals, set_int_en, store_globals};

pub fn after_host(s: &mut State, f: u8) -> u64
    ensures { RunsOn result (run concrete (resultless (after_host f))) s.old s.new }
{
    let setup = flags::setup_act(f);
    if flags::transfer(f) {
        return stand_mis(s, setup);
    }
    after_transfer(s, setup)
}

pub fn after_fifo(s: &mut State, f: u8) -> u64
    ensures { RunsOn result (run concrete (resultless (after_fifo f))) s.old s.new }
{
    if flags::hst_sof(f) {
        return stand_host(s, flags::HST_SOF, f);
    }
    after_host(s, f)
}

fn fifo(s: &mut State, f: u8) -> u64
    ensures { RunsOn result (run concrete (resultless (after_suspend f))) s.old s.new }
{
    if flags::fifo_ov(f) {
        return stand_fifo(s, flags::FIFO_OV, f);
    }
    after_fifo(s, f)
}

// The bus is woken after the mask (mod.rs 647).
pub fn after_suspend(s: &mut State, f: u8) -> u64
    ensures { RunsOnFrom result (Point.Suspend f) s.old s.new }
{
    wake_bus(s);
    fifo(s, f)
}

// The interrupt is masked: the main thread handles it (mod.rs 644-648).
fn suspend(s: &mut State, f: u8) -> u64
    ensures { RunsOn result (run concrete (resultless (after_bus_rst f))) s.old s.new }
{
    if flags::suspend(f) {
        let g = load_globals(s);
        let word = int_en::with_suspend(g.int_en, false);
        set_int_en(s, word);
        return stand_suspend(s, word as u32, f);
    }
    fifo(s, f)
}

pub fn after_bus_rst(s: &mut State, f: u8) -> u64
    ensures { RunsOnFrom result (Point.BusRst f) s.old s.new }
{
    wake_bus(s);
    suspend(s, f)
}

pub fn after_flags(s: &mut State, v: u32) -> u64
    requires { fits_in v 8 ≡ true }
    ensures { RunsOn result (run concrete (resultless (after_flags v))) s.old s.new }
{
    let f = byte(v);
    if flags::bus_rst(f) {
        let g = load_globals(s);
        let word = int_en::with_bus_rst(g.int_en, false);
        set_int_en(s, word);
        return stand_bus_rst(s, word as u32, f);
    }
    suspend(s, f)
}

// The microframe in which the interrupt began: what it admits carries it.
pub fn after_frame(s: &mut State, v: u32) -> u64
    requires { fits_in v 16 ≡ true }
    ensures { RunsOn result (run concrete (resultless (after_frame v))) s.old s.new }
{
    let frame = short(v);
    let i = microframe_index(Frame(frame));
    let mut g = load_globals(s);
    g.entered = i.0;
    store_globals(s, g);
    stand_flags(s)
}
