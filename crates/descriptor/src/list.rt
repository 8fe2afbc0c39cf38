// A list of endpoints, in which each address stands once.
ghost use Rattle.std.specs.Prelude.{◌≡◌, [], ◌+◌, ◌<◌};
ghost use Rattle.descriptor.specs.Endpoints.{of_list, listed, larger, lesser, merged, noted, place_of, agrees};
ghost use Rattle.descriptor.specs.Lists.{Tidy};
ghost use Rattle.descriptor.specs.Writing.{count_of};

use crate::{Endpoint, Endpoints};

const MOST: usize = 32;

// The list of no endpoints.
pub fn empty() -> Endpoints
    ensures { result ≡ of_list [] }
{
    let none = Endpoint {
        address: 0,
        kind: 0,
        maximum: 0,
        interval: 0,
    };
    Endpoints {
        entries: [none; 32],
        count: 0,
    }
}

// How many entries there are.
pub fn count(list: Endpoints) -> usize
    ensures { result ≡ count_of list }
{
    if list.count < MOST { list.count } else { MOST }
}

// The place of an address, or the count.
fn place(list: Endpoints, address: u8) -> usize
    requires { Tidy list }
    ensures { result ≡ place_of address (listed list) }
{
    let mut i = 0;
    while i < list.count {
        let e = list.entries[i];
        if e.address == address {
            return i;
        }
        i += 1;
    }
    i
}

fn larger(a: u16, b: u16) -> u16
    ensures { result ≡ larger a b }
{
    if a < b { b } else { a }
}

fn lesser(a: u8, b: u8) -> u8
    ensures { result ≡ lesser a b }
{
    if b < a { b } else { a }
}

fn merged(x: Endpoint, e: Endpoint) -> Endpoint
    ensures { result ≡ merged x e }
{
    Endpoint {
        address: x.address,
        kind: x.kind,
        maximum: larger(x.maximum, e.maximum),
        interval: lesser(x.interval, e.interval),
    }
}

// One more endpoint, in its address's place or at the end.
pub fn noted(mut list: Endpoints, e: Endpoint) -> Endpoints
    requires tidy { Tidy list }
    requires list_bound { place_of e.address (listed list) < 32 }
    ensures { result ≡ of_list (noted e (listed list)) }
{
    let i = place(list, e.address);
    if i < list.count {
        let x = list.entries[i];
        list.entries[i] = merged(x, e);
        return list;
    }
    list.entries[i] = e;
    list.count = i + 1;
    list
}

// Where e's address is listed, it is with e's kind.
pub fn agrees(list: Endpoints, e: Endpoint) -> bool
    requires { Tidy list }
    ensures { result ≡ agrees e (listed list) }
{
    let i = place(list, e.address);
    if i < list.count {
        let x = list.entries[i];
        return x.kind == e.kind;
    }
    true
}
