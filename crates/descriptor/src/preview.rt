// Request Four: what allocating a configuration descriptor's endpoints one by one would give, tried on a copy of the
// allocator.
ghost use Rattle.std.specs.Prelude.{◌≡◌, ◌≤◌, ◌<◌};
ghost use Rattle.descriptor.specs.Trial.{direction_of, asked, given, answered, step, start, trial_of};
ghost use Rattle.descriptor.specs.Preview.{refused_by, preview_of};
ghost use Rattle.descriptor.specs.Writing.{stored};

use crate::{Endpoint, Endpoints};
use alloc::{Allocation, Answer};
use regs::Dir;
use state::Allocator;

// The copy so far: the numbers given, in the list's order, the buffers that they take, and the refusal that ended it,
// or 0.
#[derive(Clone, Copy)]
pub struct Trial {
    pub after: Allocator,
    pub numbers: [u8; 32],
    pub count: usize,
    pub buffers: u32,
    pub refusal: u8,
}

// 17 and 18 are the whole answer.
#[derive(Clone, Copy)]
pub enum Said {
    Refused(u8),
    Tried,
}

#[derive(Clone, Copy)]
pub struct Shown {
    pub said: Said,
    pub numbers: [u8; 32],
    pub count: usize,
    pub buffers: u32,
    pub refusal: u8,
}

// Bit 7 of an address.
fn direction(address: u8) -> Dir
    ensures { result ≡ direction_of address }
{
    if address < 128 { Dir::Out } else { Dir::In }
}

fn asked(a: Allocator, e: Endpoint) -> Allocation
    ensures { result ≡ asked a e }
{
    alloc::alloc_endpoint(
        a,
        e.kind,
        e.address as u32,
        e.maximum as u32,
        direction(e.address),
    )
}

fn given(mut t: Trial, after: Allocator, number: u8, slots: u8) -> Trial
    requires count_bound { t.count < 32 }
    requires buffers_bound { t.buffers ≤ 100000 }
    ensures { result ≡ given t after number slots }
{
    let i = t.count;
    t.numbers[i] = number;
    let numbers = t.numbers;
    Trial {
        after,
        numbers,
        count: i + 1,
        buffers: t.buffers + (slots as u32),
        refusal: t.refusal,
    }
}

fn answered(mut t: Trial, after: Allocator, answer: Answer) -> Trial
    requires count_bound { t.count < 32 }
    requires buffers_bound { t.buffers ≤ 100000 }
    ensures { result ≡ answered t after answer }
{
    match answer {
        Answer::Refused(n) => {
            t.refusal = n;
            t
        }
        Answer::Given(e, _base, slots) => given(t, after, e, slots),
    }
}

// One endpoint more on the copy.
fn step(t: Trial, e: Endpoint) -> Trial
    requires count_bound { t.count < 32 }
    requires buffers_bound { t.buffers ≤ 100000 }
    ensures { result ≡ step t e }
{
    let z = asked(t.after, e);
    let after = z.after;
    let answer = z.answer;
    answered(t, after, answer)
}

fn start(a: Allocator) -> Trial
    ensures { result ≡ start a }
{
    Trial {
        after: a,
        numbers: [0; 32],
        count: 0,
        buffers: 0,
        refusal: 0,
    }
}

// The list's endpoints, in order, up to the first refusal.
pub fn try_all(a: Allocator, list: Endpoints) -> Trial
    ensures { result ≡ trial_of a (stored list) }
{
    let n = crate::list::count(list);
    let mut t = start(a);
    let mut i = 0;
    while i < n {
        if t.refusal != 0 {
            return t;
        }
        let e = list.entries[i];
        t = step(t, e);
        i += 1;
    }
    t
}

// A call that a row refuses: nothing was tried.
pub fn refused(row: u8) -> Shown
    ensures { result ≡ refused_by row }
{
    Shown {
        said: Said::Refused(row),
        numbers: [0; 32],
        count: 0,
        buffers: 0,
        refusal: 0,
    }
}

// What would happen. 17: the bytes are no configuration descriptor; 18: one address has two transfer types.
pub fn preview(a: Allocator, bytes: &[u8]) -> Shown
    ensures { result ≡ preview_of a bytes.now }
{
    let r = crate::read(bytes);
    let answer = r.answer;
    match answer {
        crate::Answer::Refused(n) => refused(n),
        crate::Answer::Listed => {
            let list = r.list;
            let t = try_all(a, list);
            let numbers = t.numbers;
            Shown {
                said: Said::Tried,
                numbers,
                count: t.count,
                buffers: t.buffers,
                refusal: t.refusal,
            }
        }
    }
}
