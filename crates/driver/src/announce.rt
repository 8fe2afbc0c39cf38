// The endpoints of a list announced one after the other, in the order of their buffers (request Three).
ghost use Rattle.std.specs.Prelude.{◌≡◌, List, ℕ, ◌*◌};
ghost use Rattle.state.specs.State.{view};
ghost use Rattle.script_ops.specs.Concrete.{go};
ghost use Rattle.driver.specs.Points.{meaning, Linked};
ghost use Rattle.driver.specs.Announce.{end_on, starts_at, found_at, announcing};

use crate::Next;
use crate::points::{LIST_MAX_LEN, endpoint};
use alloc::number::{is_iso, slots};
use regs::{Access, Dir, Reg};
use script_ops::rows::is_allocated;
use state::{State, load_allocator, load_ep};

// The bytes of n buffers.
fn room(n: u8, size: u16) -> u32
    ensures { result ≡ n * size }
{
    (n as u32) * (size as u32)
}

// The byte where an endpoint's buffers end.
pub fn end_of(s: &State, dir: Dir, e: u8) -> u64
    ensures { result ≡ end_on (view s.now) dir e }
{
    let a = load_allocator(s);
    let r = load_ep(s, dir, e);
    let n = slots(is_iso(r.kind), dir);
    (r.base as u64) + (room(n, a.size) as u64)
}

// Is it allocated, and do its buffers begin at byte x?
fn starts_at(s: &State, dir: Dir, x: u64, e: u8) -> bool
    ensures { result ≡ starts_at (view s.now) dir x e }
{
    if is_allocated(s, dir, e as u32) {
        let r = load_ep(s, dir, e);
        return (r.base as u64) == x;
    }
    false
}

// The number of the endpoint whose buffers begin at byte x, or 0.
pub fn found_at(s: &State, dir: Dir, x: u64) -> u8
    ensures { result ≡ found_at (view s.now) dir x 15 1 }
{
    let mut e: u8 = 1;
    while e < 16 {
        if starts_at(s, dir, x, e) {
            return e;
        }
        e += 1;
    }
    0
}

// An endpoint's maximum, as its record has it; its buffer, and those left, come after it.
pub fn first(s: &State, left: u8, total: u8, dir: Dir, e: u8) -> Next
    ensures by_index { (b : List ℕ) → meaning result (view s.now) b
        ≡ go (announcing left total dir e) (view s.now) b }
    ensures linked { Linked result }
{
    let r = load_ep(s, dir, e);
    Next::Asks(
        Access::Write(Reg::EpMaxLen, e, r.max_len as u32),
        endpoint(LIST_MAX_LEN, dir, r.kind, e, left, total),
    )
}
