// The endpoints of a configuration descriptor, taken up in a list. `zeroth`: those of alternate setting 0, or else the
// others.
ghost use Rattle.std.specs.Prelude.{◌≡◌, true, cond, ◌+◌, ◌*◌, ◌≤◌, length, drop};
ghost use Rattle.descriptor.specs.Row.{is_configuration, endpoint_of, setting_of, is_meant};
ghost use Rattle.descriptor.specs.Endpoints.{of_list, listed, noted, gathered, agrees, agree};
ghost use Rattle.descriptor.specs.Reading.{endpoints};
ghost use Rattle.descriptor.specs.Lists.{Tidy};
ghost use Rattle.descriptor.specs.Walk.{Sound};

use crate::{Endpoint, Endpoints, list, row};

fn number(low: u8, high: u8) -> u16
    ensures { result ≡ low + high * 256 }
{
    (low as u16) + (high as u16) * 256
}

// The endpoint whose descriptor is at `at`.
fn endpoint(bytes: &[u8], at: usize) -> Endpoint
    requires { at + 7 ≤ length bytes.now }
    ensures { result ≡ endpoint_of (drop at bytes.now) }
{
    Endpoint {
        address: bytes[at + 2],
        kind: bytes[at + 3] % 4,
        maximum: number(bytes[at + 4], bytes[at + 5]) % 2048,
        interval: bytes[at + 6],
    }
}

// The alternate setting at `at`, after the one before.
fn setting(bytes: &[u8], at: usize, before: u8) -> u8
    requires { Sound bytes.now at }
    ensures { result ≡ setting_of before (drop at bytes.now) }
{
    if row::is_interface(bytes[at + 1]) {
        return bytes[at + 3];
    }
    before
}

fn is_meant(bytes: &[u8], at: usize, zeroth: bool, setting: u8) -> bool
    requires { Sound bytes.now at }
    ensures { result ≡ is_meant zeroth setting (drop at bytes.now) }
{
    if !row::is_endpoint(bytes[at + 1]) {
        return false;
    }
    if zeroth { setting == 0 } else { setting != 0 }
}

// The list with what is at `at`, where it is meant.
fn taken(bytes: &[u8], at: usize, zeroth: bool, setting: u8, list: Endpoints) -> Endpoints
    requires sound { Sound bytes.now at }
    requires tidy { Tidy list }
    ensures { result ≡ cond (is_meant zeroth setting (drop at bytes.now))
        (of_list (noted (endpoint_of (drop at bytes.now)) (listed list))) list }
{
    if is_meant(bytes, at, zeroth, setting) {
        return list::noted(list, endpoint(bytes, at));
    }
    list
}

// Those that are meant, each in its address's place or at the end.
pub fn gather(bytes: &[u8], zeroth: bool, list: Endpoints) -> Endpoints
    requires bytes_value { is_configuration bytes.now ≡ true }
    requires tidy { Tidy list }
    ensures value { result ≡ of_list (gathered (listed list) (endpoints zeroth bytes.now)) }
    ensures tidy_2 { Tidy result }
{
    let mut so_far = list;
    let mut now_in = 0;
    let mut at = row::wide(bytes[0]);
    while at < bytes.len() {
        now_in = setting(bytes, at, now_in);
        so_far = taken(bytes, at, zeroth, now_in, so_far);
        at += row::wide(bytes[at]);
    }
    so_far
}

// Where what is at `at` is meant, is its kind that of its address in the list?
fn agrees(bytes: &[u8], at: usize, zeroth: bool, setting: u8, list: Endpoints) -> bool
    requires sound { Sound bytes.now at }
    requires tidy { Tidy list }
    ensures { result ≡ cond (is_meant zeroth setting (drop at bytes.now))
        (agrees (endpoint_of (drop at bytes.now)) (listed list)) true }
{
    if is_meant(bytes, at, zeroth, setting) {
        return list::agrees(list, endpoint(bytes, at));
    }
    true
}

// Is this so for all of them?
pub fn agree(bytes: &[u8], zeroth: bool, list: Endpoints) -> bool
    requires bytes_value { is_configuration bytes.now ≡ true }
    requires tidy { Tidy list }
    ensures { result ≡ agree (listed list) (endpoints zeroth bytes.now) }
{
    let mut now_in = 0;
    let mut at = row::wide(bytes[0]);
    while at < bytes.len() {
        now_in = setting(bytes, at, now_in);
        if !agrees(bytes, at, zeroth, now_in, list) {
            return false;
        }
        at += row::wide(bytes[at]);
    }
    true
}
