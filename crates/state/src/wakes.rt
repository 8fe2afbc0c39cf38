// The wake-ups gathered by the operation under way, in their order: how many, and a code for each (0 to 15 IN, 16 to 31
// OUT, 32 the bus). Each wake-up goes through `wake`.
ghost use Rattle.std.specs.Prelude.{◌≡◌, ◌%◌, ◌≤◌, slice_index, slice_set};
ghost use Rattle.state.specs.Driver.{with_wakes, none_gathered};
ghost use Rattle.state.specs.State.{view, saved};
ghost use Rattle.state.specs.Wakes.{wake_code, none_woken, woken, with_count, with_codes};
ghost use Rattle.state.specs.Fresh.{filled};

use crate::{CODES, State, WAKES, sized};
use bits::le_bytes::{get8, put8};
use regs::Dir;

// The code of an endpoint's task: 0 to 15 for IN, 16 to 31 for OUT.
pub fn wake_code(dir: Dir, e: u8) -> u8
    ensures { result ≡ wake_code dir e }
{
    match dir {
        Dir::Out => 16 + e % 16,
        Dir::In => e % 16,
    }
}

// How many wake-ups the state lists.
pub fn woken_count(s: &State) -> u8
    ensures { result ≡ (view s.now).wakes.count }
{
    get8(s, WAKES, 0)
}

// Whose is the one at place i, taken modulo 64.
pub fn woken_at(s: &State, i: u8) -> u8
    ensures { result ≡ slice_index (view s.now).wakes.codes (i % 64) }
{
    get8(s, CODES + (i % 64) as usize * 1, 0)
}

fn store_count(s: &mut State, n: u8)
    ensures s_after { view s.new ≡ with_wakes (view s.old)
        (with_count (view s.old).wakes n) }
    ensures s_unchanged { saved s.new ≡ saved s.old }
{
    sized(s);
    put8(s, WAKES, 0, n);
}

fn store_code(s: &mut State, i: u8, code: u8)
    requires { i ≤ 63 }
    ensures s_after { view s.new ≡ with_wakes (view s.old)
        (with_codes (view s.old).wakes (slice_set (view s.old).wakes.codes i code)) }
    ensures s_unchanged { saved s.new ≡ saved s.old }
{
    sized(s);
    put8(s, CODES + i as usize * 1, 0, code);
}

// Adds a code at the end of the list of wake-ups; a full list stays.
pub fn wake(s: &mut State, code: u8)
    ensures s_after { view s.new ≡ with_wakes (view s.old)
        (woken code (view s.old).wakes) }
    ensures s_unchanged { saved s.new ≡ saved s.old }
{
    let n = woken_count(s);
    if n < 64 {
        store_code(s, n, code);
        store_count(s, n + 1);
    }
}

fn clear_codes(s: &mut State)
    ensures s_after { view s.new ≡ with_wakes (view s.old)
        (with_codes (view s.old).wakes (filled (view s.old).wakes.codes 0 64 0)) }
    ensures s_unchanged { saved s.new ≡ saved s.old }
{
    let mut k: u8 = 0;
    while k < 64 {
        store_code(s, k, 0);
        k += 1;
    }
}

// An operation begins: none is listed. What stands behind the list is left.
pub fn clear_wakes(s: &mut State)
    ensures s_after { view s.new ≡ none_gathered (view s.old) }
    ensures s_unchanged { saved s.new ≡ saved s.old }
{
    store_count(s, 0);
}

// Empties the list of wake-ups and clears all its codes, as a start-up does.
pub fn fresh_wakes(s: &mut State)
    ensures s_after { view s.new ≡ with_wakes (view s.old) none_woken }
    ensures s_unchanged { saved s.new ≡ saved s.old }
{
    clear_codes(s);
    clear_wakes(s);
}
