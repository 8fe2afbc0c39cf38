// A list's endpoints allocated one after the other, and the first of them announced (request Three).
ghost use Rattle.std.specs.Prelude.{◌≡◌, List, ℕ};
ghost use Rattle.descriptor.specs.Writing.{stored};
ghost use Rattle.descriptor.specs.Trial.{direction_of};
ghost use Rattle.state.specs.State.{view, saved};
ghost use Rattle.script_ops.specs.Concrete.{go};
ghost use Rattle.driver.specs.Points.{meaning, Linked};
ghost use Rattle.driver.specs.Each.{one_on, each_on, announce_all};

use crate::Next;
use crate::announce::first;
use descriptor::{Endpoint, Endpoints};
use regs::Dir;
use state::State;

// Bit 7 of an address.
fn direction(address: u8) -> Dir
    ensures { result ≡ direction_of address }
{
    if address < 128 { Dir::Out } else { Dir::In }
}

fn allocate_one(s: &mut State, e: Endpoint)
    ensures s_after { view s.new ≡ one_on (view s.old) e }
    ensures s_unchanged { saved s.new ≡ saved s.old }
{
    let _z = script_ops::records::allocate(
        s,
        direction(e.address),
        e.kind,
        e.address as u32,
        e.maximum as u32,
        e.interval as u32,
    );
}

// All of the list, in its order.
pub fn allocate_each(s: &mut State, list: Endpoints)
    ensures s_after { view s.new ≡ each_on (view s.old) (stored list) }
    ensures s_unchanged { saved s.new ≡ saved s.old }
{
    let n = descriptor::list::count(list);
    let mut i = 0;
    while i < n {
        let e = list.entries[i];
        allocate_one(s, e);
        i += 1;
    }
}

// The first of the list, after which come the others; none of an empty one.
pub fn announce_all(s: &State, list: Endpoints) -> Next
    ensures by_index { (b : List ℕ) → meaning result (view s.now) b
        ≡ go (announce_all (stored list)) (view s.now) b }
    ensures linked { Linked result }
{
    let n = descriptor::list::count(list);
    if n == 0 {
        return Next::Ends(0);
    }
    let e = list.entries[0];
    first(
        s,
        (n - 1) as u8,
        n as u8,
        direction(e.address),
        e.address % 128,
    )
}
