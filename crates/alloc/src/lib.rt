#![tactic(auto)]

ghost use Rattle.std.specs.Prelude.{◌≡◌, ◌<◌};
ghost use Rattle.alloc.specs.Alloc.{refused, buffered_of, allocate_of, allocate_ep0_of, allocated};

use regs::Dir;
use state::{Allocator, EpState};

pub mod masks; // masks.rt: sets of endpoint numbers
pub mod number; // number.rt: the number of an allocation
pub mod buffer; // buffer.rt: the lent slot buffer's size and length

// An endpoint number that may be given, if there is one.
#[derive(Clone, Copy)]
pub enum Found {
    Number(u8),
    Nothing,
}

// What an allocation answers: document 01's number, or the endpoint number, the offset of its buffers and how many they
// are.
#[derive(Clone, Copy)]
pub enum Answer {
    Refused(u8),
    Given(u8, u32, u8),
}

#[derive(Clone, Copy)]
pub struct Allocation {
    pub answer: Answer,
    pub after: Allocator,
}

fn refused(row: u8, a: Allocator) -> Allocation
    ensures { result ≡ refused row a }
{
    Allocation {
        answer: Answer::Refused(row),
        after: a,
    }
}

// The buffers of a free number: row 8, or the endpoint is allocated.
fn buffered(a: Allocator, iso: bool, dir: Dir, e: u8) -> Allocation
    requires { e < 16 }
    ensures { result ≡ buffered_of a iso dir e }
{
    let n = number::slots(iso, dir);
    let end = number::end(a.next, n);
    if (a.count as u32) < end {
        return refused(8, a);
    }
    let base = (a.next as u32) * (a.size as u32);
    let t = masks::taken(a, iso, dir, e);
    let used = masks::with_next(t, end as u16);
    let after = masks::with_allocated(used, dir, e);
    Allocation {
        answer: Answer::Given(e, base, n),
        after,
    }
}

// An endpoint number and its buffers: rows 6, 7, 8. `address` is a descriptor's byte, or 256 or more where none is
// asked for.
pub fn alloc_endpoint(a: Allocator, kind: u8, address: u32, maximum: u32, dir: Dir) -> Allocation
    ensures { result ≡ allocate_of a kind address maximum dir }
{
    if (a.size as u32) < maximum {
        return refused(6, a);
    }
    let iso = number::is_iso(kind);
    let found = number::find(a, iso, address, dir);
    match found {
        Found::Nothing => refused(7, a),
        Found::Number(e) => buffered(a, iso, dir, e),
    }
}

// The maximum of a high-speed control endpoint (USB 2.0, 5.5.3).
const EP0_MAX: u32 = 64;

// EP0's buffer: rows 22, 6, 8. The number given is 0.
pub fn allocate_ep0(a: Allocator, maximum: u32) -> Allocation
    ensures { result ≡ allocate_ep0_of a maximum }
{
    if maximum != EP0_MAX {
        return refused(22, a);
    }
    if (a.size as u32) < maximum {
        return refused(6, a);
    }
    if a.count <= a.next {
        return refused(8, a);
    }
    let base = (a.next as u32) * (a.size as u32);
    let after = masks::with_next(a, a.next + 1);
    Allocation {
        answer: Answer::Given(0, base, 1),
        after,
    }
}

// The endpoint's record after an accepted allocation.
pub fn endpoint(mut s: EpState, kind: u8, maximum: u16, base: u32, size: u16, slots: u8) -> EpState
    ensures { result ≡ allocated s kind maximum base size slots }
{
    s.iso = number::flag(number::is_iso(kind));
    s.kind = kind % 4;
    s.max_len = maximum;
    s.base = base;
    s.stride = size;
    s.armed_slot = base;
    s.slots = slots;
    state::by_loan(s)
}
