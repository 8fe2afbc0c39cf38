// The burst of accesses of an isochronous OUT that is enabled or disabled (mod.rs 1285-1311), one at a time. Every
// function is total: any number is safe.
ghost use Rattle.std.specs.Prelude.{◌≡◌, cond, ◌-◌, ◌<◌};
ghost use Rattle.state.specs.State.{view, saved};
ghost use Rattle.bus.specs.declared.Point.TheVariants as Point;
ghost use Rattle.bus.specs.Points.{switching, asked, Awaited};

use regs::{Access, Reg};
use script_ops::records::{config_step, type_step};
use script_ops::slots::slot_step;
use state::State;

// The word of the row: ISO responses, or NAK.
fn switch_word(on: bool) -> u32
    ensures { result ≡ cond on 1 2 }
{
    if on {
        return 1;
    }
    2
}

// An isochronous OUT (mod.rs 1285-1311): every slot armed from the last, its control word, ep_type, ep_config. `n` of
// these are left.
pub fn after_switch(s: &mut State, buf: &mut [u8], e: u8, on: bool, n: u8) -> Access
    requires { 0 < n }
    ensures buf_after { asked result (Point.Switch e on (n - 1)) (view s.new) buf.new
        ≡ switching e on n (view s.old, buf.old) }
    ensures s_unchanged { saved s.new ≡ saved s.old }
    ensures awaited { Awaited result (Point.Switch e on (n - 1)) }
{
    if 3 < n {
        let at = slot_step(s, buf, e, n - 4);
        return Access::Receive(e, at);
    }
    if n == 3 {
        let word = switch_word(on);
        return Access::Write(Reg::EpRxCtrl, e, word);
    }
    if n == 2 {
        let word = type_step(s, e, on);
        return Access::Write(Reg::EpType, 0, word);
    }
    let word = config_step(s, e, on);
    Access::Write(Reg::EpConfig, 0, word)
}
