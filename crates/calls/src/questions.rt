ghost use Rattle.std.specs.Prelude.{◌≡◌};
ghost use Rattle.state.specs.State.{view};
ghost use Rattle.answer.specs.Questions.{pending_on, overruns_of, overruns_on, enabled_asked};

use regs::Dir;
use script_ops::rings::is_on;
use script_ops::rows::{is_number, low};
use state::{EpState, State};

// The packets queued on IN e and not yet taken by the host.
pub fn pending(s: &State, e: u32) -> u32
    ensures { result ≡ pending_on (view s.now) e }
{
    if is_number(e) {
        let r = state::load_ep(s, Dir::In, low(e));
        return r.count() as u32;
    }
    0
}

fn iso_out_overruns(r: EpState) -> u32
    ensures { result ≡ overruns_of r }
{
    if is_on(r.iso) {
        return r.overruns;
    }
    0
}

// The packets of OUT e that were turned away.
pub fn overruns(s: &State, e: u32) -> u32
    ensures { result ≡ overruns_on (view s.now) e }
{
    if is_number(e) {
        let r = state::load_ep(s, Dir::Out, low(e));
        return iso_out_overruns(r);
    }
    0
}

// Whether the host enabled the endpoint.
pub fn enabled(s: &State, dir: Dir, e: u32) -> bool
    ensures { result ≡ enabled_asked (view s.now) dir e }
{
    if is_number(e) {
        let g = state::load_globals(s);
        return regs::enables::is_on(g.ep_config, dir, low(e));
    }
    false
}
