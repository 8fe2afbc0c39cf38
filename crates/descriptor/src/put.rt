// Descriptors written into lent room.
ghost use Rattle.std.specs.Prelude.{◌≡◌, ◌+◌, ◌*◌, ◌≤◌, length};
ghost use Rattle.descriptor.specs.Writing.{low, high, laid, total_for, configuration, interface, endpoint};
ghost use Rattle.descriptor.specs.Writing.{endpoints, up_to};

use crate::{Endpoint, Endpoints};

fn low(x: usize) -> u8
    ensures { result ≡ low x }
{
    (x % 256) as u8
}

fn high(x: usize) -> u8
    ensures { result ≡ high x }
{
    (x / 256 % 256) as u8
}

// The bytes of d from `at` on.
fn put(room: &mut [u8], at: usize, d: &[u8])
    requires { at + length d.now ≤ length room.old }
    ensures { room.new ≡ laid room.old at d.now }
{
    let mut i = 0;
    while i < d.len() {
        room[at + i] = d[i];
        i += 1;
    }
}

// Writes the configuration descriptor's header for n endpoints.
pub fn configuration(room: &mut [u8], n: usize)
    requires n_bound { n ≤ 32 }
    requires in_bounds { 18 ≤ length room.old }
    ensures { room.new ≡ laid room.old 0 (configuration n) }
{
    let total = 18 + n * 7;
    let d = [9, 2, low(total), high(total), 1, 0, 0, 0, 0];
    put(room, 0, &d);
}

// Writes the interface descriptor behind the header, for n endpoints.
pub fn interface(room: &mut [u8], n: usize)
    requires n_bound { n ≤ 32 }
    requires in_bounds { 18 ≤ length room.old }
    ensures { room.new ≡ laid room.old 9 (interface n) }
{
    let d = [9, 4, 0, 0, n as u8, 0, 0, 0, 0];
    put(room, 9, &d);
}

fn endpoint(room: &mut [u8], at: usize, e: Endpoint)
    requires { at + 7 ≤ length room.old }
    ensures { room.new ≡ laid room.old at (endpoint e) }
{
    let maximum = e.maximum as usize;
    let d = [
        7,
        5,
        e.address,
        e.kind,
        low(maximum),
        high(maximum),
        e.interval,
    ];
    put(room, at, &d);
}

// The first n of the list, after the interface.
pub fn endpoints(room: &mut [u8], list: Endpoints, n: usize)
    requires n_bound { n ≤ 32 }
    requires n_in_bounds { total_for n ≤ length room.old }
    ensures { room.new ≡ laid room.old 18 (endpoints (up_to n list.entries)) }
{
    let mut i = 0;
    while i < n {
        let e = list.entries[i];
        endpoint(room, 18 + i * 7, e);
        i += 1;
    }
}
