ghost use Rattle.std.specs.Prelude.{◌≡◌, [], ℕ, ◌≤◌, ◌<◌};
ghost use Rattle.regs.specs.declared.Reg.TheVariants.{EpConfig};
ghost use Rattle.state.specs.Driver.{Driver};
ghost use Rattle.state.specs.State.{view};
ghost use Rattle.script.specs.Every.{same_reg};
ghost use Rattle.machine.specs.Suspended.{answer_of};
ghost use Rattle.calls.specs.Sharing.{charge_on, starting, going, written, time_after};
ghost use Rattle.calls.specs.Charging.{charged_at};

use answer::Step;
use bus_time::{Time, charge, charge_of, keep};
use regs::registers::number;
use regs::{Access, Dir, Reg};
use state::State;

// What the endpoint is charged; its number counts modulo 16.
pub fn charge_on(s: &State, dir: Dir, e: u32) -> u32
    ensures value { result ≡ charge_on (view s.now) dir e }
    ensures upper_bound { result ≤ 65590 }
{
    let r = state::load_ep(s, dir, (e % 16) as u8);
    charge_of(r.kind, r.max_len)
}

// An enabling: charged where it is begun.
pub fn charged(time: &mut Time, at: usize, c: u32, step: Step)
    requires at_bound { at < 128 }
    requires c_bound { c < 65536 }
    ensures { (x : Driver) → time.new ≡ charged_at (answer_of step [] x) at c time.old }
{
    match step {
        Step::Asks(_q) => charge(time, at, c),
        _ => {}
    }
}

// A start-up: an accepted one gives all back.
pub fn started(time: &mut Time, driver: u32, step: Step)
    ensures { (x d : Driver) → time.new
        ≡ time_after driver starting (answer_of step [] x) d time.old }
{
    match step {
        Step::Asks(_q) => keep(time, driver, 0),
        _ => {}
    }
}

fn is_config(reg: Reg) -> bool
    ensures { result ≡ same_reg reg EpConfig }
{
    number(reg) == 9
}

fn after_write(time: &mut Time, driver: u32, reg: Reg, word: u32)
    ensures { (e : ℕ) → time.new ≡ written driver (Access.Write reg e word) time.old }
{
    if is_config(reg) {
        keep(time, driver, word);
    }
}

fn after_access(time: &mut Time, driver: u32, q: Access)
    ensures { time.new ≡ written driver q time.old }
{
    match q {
        Access::Write(reg, _e, word) => after_write(time, driver, reg, word),
        _ => {}
    }
}

// A continue: the access that it hands out.
pub fn gone_on(time: &mut Time, driver: u32, step: Step)
    ensures { (x d : Driver) → time.new
        ≡ time_after driver going (answer_of step [] x) d time.old }
{
    match step {
        Step::Asks(q) => after_access(time, driver, q),
        _ => {}
    }
}
