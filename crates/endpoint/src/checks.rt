// The check before a request (row 9), the endpoint's request, and the wait for its completion.
ghost use Rattle.std.specs.Prelude.{◌≡◌, false, List, ℕ};
ghost use Rattle.regs.specs.Enables as enables;
ghost use Rattle.state.specs.Driver.{with_request_on};
ghost use Rattle.state.specs.State.{view, saved};
ghost use Rattle.script.specs.Answers.{Refused, NotYet};
ghost use Rattle.script.specs.Script.{ret};
ghost use Rattle.script.specs.Endpoint.{begun, empty_request, enabled_else, ends_request};
ghost use Rattle.script_ops.specs.Concrete.{go};
ghost use Rattle.endpoint.specs.Points.{polled_as};

use crate::Polled;
use regs::Dir;
use script_ops::rows;
use state::{Request, State, load_globals, store_request};

// `is_enabled`, endpoint.rs 55-60 (row 9 turned round).
pub fn is_enabled(s: &State, dir: Dir, e: u8) -> bool
    ensures { result ≡ enables.is_on (view s.now).globals.ep_config dir e }
{
    let g = load_globals(s);
    regs::enables::is_on(g.ep_config, dir, e)
}

// The request that an accepted begin leaves.
pub fn set_request(s: &mut State, dir: Dir, e: u8, n: u32)
    ensures s_after { view s.new ≡ with_request_on (view s.old) dir e (begun n) }
    ensures s_unchanged { saved s.new ≡ saved s.old }
{
    store_request(
        s,
        dir,
        e,
        Request {
            begun: 1,
            length: n,
        },
    );
}

// Ends the request of one direction of an endpoint.
pub fn end_request(s: &mut State, dir: Dir, e: u8)
    ensures s_after { view s.new ≡ with_request_on (view s.old) dir e empty_request }
    ensures s_unchanged { saved s.new ≡ saved s.old }
{
    store_request(
        s,
        dir,
        e,
        Request {
            begun: 0,
            length: 0,
        },
    );
}

// Not ready yet, or the endpoint's disabling ends the request (endpoint.rs 135-139, 187-191).
pub fn wait_on(s: &mut State, dir: Dir, e: u8) -> Polled
    ensures by_index { (out b : List ℕ) → polled_as result out (view s.new) b
        ≡ go {i = false} (enabled_else dir e (ends_request dir e (Refused 9)) (ret NotYet)) (view s.old)
        b }
    ensures s_unchanged { saved s.new ≡ saved s.old }
{
    if is_enabled(s, dir, e) {
        return Polled::NotYet;
    }
    end_request(s, dir, e);
    Polled::Refused(rows::DISABLED)
}
