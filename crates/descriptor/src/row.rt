// Descriptors one after the other. `at` is the place of one of them; the bytes from there on are a row.
ghost use Rattle.std.specs.Prelude.{◌≡◌, true, false, ◌+◌, ◌≤◌, eqb, length, drop};
ghost use Rattle.descriptor.specs.Row.{least, whole, is_clear, allowed, entered, is_row, is_configuration, total_of};

const CONFIGURATION: u8 = 2;

const INTERFACE: u8 = 4;

const ENDPOINT: u8 = 5;

const MOST: usize = 4096;

// Whether a descriptor's type is INTERFACE (4).
pub fn is_interface(kind: u8) -> bool
    ensures { result ≡ eqb kind 4 }
{
    kind == INTERFACE
}

// Whether a descriptor's type is ENDPOINT (5).
pub fn is_endpoint(kind: u8) -> bool
    ensures { result ≡ eqb kind 5 }
{
    kind == ENDPOINT
}

// The least length byte of a kind.
fn least(kind: u8) -> u8
    ensures { result ≡ least kind }
{
    if kind == CONFIGURATION {
        return 9;
    }
    if kind == INTERFACE {
        return 9;
    }
    if kind == ENDPOINT {
        return 7;
    }
    2
}

// A byte as an index.
pub fn wide(x: u8) -> usize
    ensures { result ≡ x }
{
    x as usize
}

// Its length byte is neither below its kind's length nor runs past the end.
fn is_whole(bytes: &[u8], at: usize) -> bool
    requires { at ≤ length bytes.now }
    ensures { result ≡ whole (drop at bytes.now) }
{
    let left = bytes.len() - at;
    if left < 2 {
        return false;
    }
    if bytes[at] < least(bytes[at + 1]) {
        return false;
    }
    wide(bytes[at]) <= left
}

// Address bits 4-6 are clear.
fn is_clear(address: u8) -> bool
    ensures { result ≡ is_clear address }
{
    address / 16 % 8 == 0
}

// May it stand there? `inside`: an interface came before.
fn is_allowed(bytes: &[u8], at: usize, inside: bool) -> bool
    requires at_in_bounds { at ≤ length bytes.now }
    requires bytes_value { whole (drop at bytes.now) ≡ true }
    ensures { result ≡ allowed inside (drop at bytes.now) }
{
    let kind = bytes[at + 1];
    if kind == CONFIGURATION {
        return false;
    }
    if kind == ENDPOINT {
        if !inside {
            return false;
        }
        return is_clear(bytes[at + 2]);
    }
    true
}

fn enters(bytes: &[u8], at: usize, inside: bool) -> bool
    requires { at + 2 ≤ length bytes.now }
    ensures { result ≡ entered inside (drop at bytes.now) }
{
    if inside {
        return true;
    }
    is_interface(bytes[at + 1])
}

// Are they all as they should be?
fn is_row(bytes: &[u8], from: usize) -> bool
    requires { from ≤ length bytes.now }
    ensures { result ≡ is_row (length bytes.now) false (drop from bytes.now) }
{
    let mut at = from;
    let mut inside = false;
    while at < bytes.len() {
        if !is_whole(bytes, at) {
            return false;
        }
        if !is_allowed(bytes, at, inside) {
            return false;
        }
        inside = enters(bytes, at, inside);
        at += wide(bytes[at]);
    }
    true
}

fn total(bytes: &[u8]) -> usize
    requires { 4 ≤ length bytes.now }
    ensures { result ≡ total_of bytes.now }
{
    wide(bytes[2]) + wide(bytes[3]) * 256
}

// Do the bytes have no error 17?
pub fn is_configuration(bytes: &[u8]) -> bool
    ensures { result ≡ is_configuration bytes.now }
{
    if MOST < bytes.len() {
        return false;
    }
    if !is_whole(bytes, 0) {
        return false;
    }
    if bytes[1] != CONFIGURATION {
        return false;
    }
    if total(bytes) != bytes.len() {
        return false;
    }
    is_row(bytes, wide(bytes[0]))
}
