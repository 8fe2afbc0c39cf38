// What reads, writes and the control pipe share: an endpoint's flags, a reading as a byte, bytes of a slot for the
// caller's slice.
ghost use Rattle.std.specs.Prelude.{◌≡◌, true, ◌-◌, ◌≤◌, min, length};
ghost use Rattle.regs.specs.Registers.{fits_in};
ghost use Rattle.state.specs.State.{view, saved};
ghost use Rattle.script.specs.Statics.{with_ready, with_armed};
ghost use Rattle.ring.specs.Copies.{over, bytes_at};
ghost use Rattle.endpoint.specs.Records.{modified_on};

use regs::Dir;
use ring::marks::copy_out;
use state::{State, load_ep, store_ep};

// Forgets a completion of the endpoint.
pub fn unready(s: &mut State, dir: Dir, e: u8)
    ensures s_after { view s.new ≡ modified_on dir e (with_ready 0) (view s.old) }
    ensures s_unchanged { saved s.new ≡ saved s.old }
{
    let mut r = load_ep(s, dir, e);
    r.ready = 0;
    store_ep(s, dir, e, r);
}

// A packet is armed or loaded, or none is.
pub fn set_armed(s: &mut State, dir: Dir, e: u8, v: u8)
    ensures s_after { view s.new ≡ modified_on dir e (with_armed v) (view s.old) }
    ensures s_unchanged { saved s.new ≡ saved s.old }
{
    let mut r = load_ep(s, dir, e);
    r.armed = v;
    store_ep(s, dir, e, r);
}

// A control word that was read.
pub fn byte(v: u32) -> u8
    requires { fits_in v 8 ≡ true }
    ensures { result ≡ v }
{
    v as u8
}

// A length that is at most a maximum.
pub fn length16(n: usize, most: u16) -> u16
    requires { n ≤ most }
    ensures { result ≡ n }
{
    n as u16
}

// How many of n bytes from an offset lie in a buffer.
fn available(len: usize, at: usize, n: u16) -> u16
    ensures { result ≡ min n (len - at) }
{
    if len < at {
        return 0;
    }
    if len - at < n as usize {
        return (len - at) as u16;
    }
    n
}

// The slot's first n bytes to the front of `out`; how many they are (in a run, n).
pub fn fetch(buf: &[u8], at: u32, out: &mut [u8], n: u16) -> u16
    requires { n ≤ length out.old }
    ensures value { result ≡ length (bytes_at buf.now at n) }
    ensures out_after { out.new ≡ over (bytes_at buf.now at n) out.old }
{
    let k = available(buf.len(), at as usize, n);
    copy_out(buf, at, out, k);
    k
}
