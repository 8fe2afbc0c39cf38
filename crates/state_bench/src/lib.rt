// What the benchmark in bench/ measures: a record is loaded, its head and one length change, and it is stored.
#![tactic(auto)]

ghost use Rattle.std.specs.Prelude.{◌≡◌};
ghost use Rattle.state.specs.State.{view};
ghost use Rattle.state_bench.specs.Push.{pushed};

use regs::Dir;
use state::{State, load_ep, store_ep, store_len};

#[unsafe(no_mangle)]
pub extern "C" fn state_bench_push(s: &mut State, e: u8, len: u16)
    ensures { view s.new ≡ pushed (view s.old) e len }
{
    let mut r = load_ep(s, Dir::Out, e);
    store_len(s, Dir::Out, e, r.head, len);
    r.head = std::num::wrapping_add_u8(r.head, 1);
    store_ep(s, Dir::Out, e, r);
}
