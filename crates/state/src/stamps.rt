// The microframe index with each packet of an OUT ring.
ghost use Rattle.std.specs.Prelude.{◌≡◌, ◌+◌, ◌<◌, ◌≤◌};
ghost use Rattle.state.specs.Driver.{stamp_key, stamp_on, with_stamp_on, with_stamps};
ghost use Rattle.state.specs.State.{view, saved};
ghost use Rattle.state.specs.Fresh.{filled, clear_stamps, no_stamps};

use crate::{STAMPS, State, sized};
use bits::le_bytes::{get16, put16};

// The place of slot i's stamp.
fn stamp_key(e: u8, i: u8) -> usize
    ensures { (result ≡ stamp_key e i) × (result < 256) }
{
    (e % 16) as usize * 16 + (i % 16) as usize
}

// The stamp of slot i of OUT e, both taken modulo 16.
pub fn load_stamp(s: &State, e: u8, i: u8) -> u16
    ensures { result ≡ stamp_on (view s.now) e i }
{
    let k = stamp_key(e, i);
    get16(s, STAMPS + k * 2, 0)
}

// Stores the stamp of slot i of an OUT.
pub fn store_stamp(s: &mut State, e: u8, i: u8, v: u16)
    ensures s_after { view s.new ≡ with_stamp_on (view s.old) e i v }
    ensures s_unchanged { saved s.new ≡ saved s.old }
{
    sized(s);
    let k = stamp_key(e, i);
    put16(s, STAMPS + k * 2, 0, v);
}

// The n stamps from a.
fn clear_from(s: &mut State, a: usize, n: usize)
    requires { a + n ≤ 256 }
    ensures s_after { view s.new ≡ with_stamps (view s.old)
        (filled (view s.old).stamps a n 0) }
    ensures s_unchanged { saved s.new ≡ saved s.old }
{
    let mut k: usize = 0;
    while k < n {
        sized(s);
        put16(s, STAMPS + (a + k) * 2, 0, 0);
        k += 1;
    }
}

// All stamps of OUT e.
pub fn clear_stamps(s: &mut State, e: u8)
    ensures s_after { view s.new ≡ clear_stamps (view s.old) e }
    ensures s_unchanged { saved s.new ≡ saved s.old }
{
    clear_from(s, (e % 16) as usize * 16, 16);
}

// Clears the stamps of every OUT.
pub fn clear_all_stamps(s: &mut State)
    ensures s_after { view s.new ≡ no_stamps (view s.old) }
    ensures s_unchanged { saved s.new ≡ saved s.old }
{
    clear_from(s, 0, 256);
}
