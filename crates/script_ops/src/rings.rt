// The rings' operations on the driver and the lent buffer: what is asked of a ring, IN rings, reads of OUT rings,
// buffers that are no ring's. Every function is total: any number is safe.
ghost use Rattle.std.specs.Prelude.{◌≡◌, cond, ◌+◌, ◌*◌, ◌≤◌};
ghost use Rattle.regs.specs.declared.Dir.TheVariants.{Out};
ghost use Rattle.state.specs.Driver.{with_on};
ghost use Rattle.state.specs.State.{view, saved};
ghost use Rattle.script.specs.Statics.{is_on};
ghost use Rattle.script_ops.specs.Rings.{changed_on, marked_on, waiting_on, room_in, room_on, opened_on, next_len};
ghost use Rattle.script_ops.specs.Rings.{next_stamp, oldest_at, word_at, complete_on, open_on, close_on, take_on};
ghost use Rattle.script_ops.specs.Rings.{enqueue_on, filled_on, filled_ep0, send_addr, send_on};

use regs::Dir;
use ring::marks::{copy_in, is_marked, marked_len};
use ring::{
    closed, completed, has_room_in, has_waiting, joined, loaded, slot_addr, slot_index, unloaded,
};
use state::{EpState, State, load_ep, load_globals, load_len, load_stamp, store_ep, store_len};

// A flag in a byte.
pub fn is_on(n: u8) -> bool
    ensures { result ≡ is_on n }
{
    n != 0
}

// Whether a 16-bit number is not 0.
pub fn is_on_half(n: u16) -> bool
    ensures { result ≡ is_on n }
{
    n != 0
}

// Whether a 32-bit number is not 0.
pub fn is_on_word(n: u32) -> bool
    ensures { result ≡ is_on n }
{
    n != 0
}

// Has the armed slot's first word changed: a packet arrived (mod.rs 474)?
pub fn changed(s: &State, buf: &[u8], e: u8) -> bool
    ensures { result ≡ changed_on (view s.now) e buf.now }
{
    let r = load_ep(s, Dir::Out, e);
    !is_marked(buf, r.armed_slot)
}

// The length of the packet in the armed slot, by the marks (mod.rs 488).
pub fn marked(s: &State, buf: &[u8], e: u8) -> u16
    ensures { result ≡ marked_on (view s.now) e buf.now }
{
    let r = load_ep(s, Dir::Out, e);
    marked_len(buf, r.armed_slot, r.max_len)
}

// Whether a packet waits on one direction of an endpoint.
pub fn waiting(s: &State, dir: Dir, e: u8) -> bool
    ensures { result ≡ waiting_on (view s.now) dir e }
{
    has_waiting(load_ep(s, dir, e))
}

// Is there a free slot in an isochronous IN ring, and do n bytes fit it?
fn takes(r: EpState, n: usize) -> bool
    ensures { result ≡ room_in r n }
{
    if !is_on(r.iso) {
        return false;
    }
    if !has_room_in(r) {
        return false;
    }
    !((r.stride as usize) < n)
}

// Whether an IN ring has room for a packet of n bytes.
pub fn room(s: &State, e: u8, n: usize) -> bool
    ensures { result ≡ room_on (view s.now) e n }
{
    takes(load_ep(s, Dir::In, e), n)
}

// Is a packet open?
pub fn opened(s: &State, e: u8) -> bool
    ensures { result ≡ opened_on (view s.now) e }
{
    let r = load_ep(s, Dir::Out, e);
    is_on_half(r.open)
}

// The length of the oldest packet; 0 where none waits.
pub fn next_len(s: &State, dir: Dir, e: u8) -> u16
    ensures { result ≡ next_len (view s.now) dir e }
{
    let r = load_ep(s, dir, e);
    if has_waiting(r) {
        return load_len(s, dir, e, slot_index(r, r.tail));
    }
    0
}

// The microframe with the oldest packet of OUT e; 0 where none waits.
pub fn next_stamp(s: &State, e: u8) -> u16
    ensures { result ≡ next_stamp (view s.now) e }
{
    let r = load_ep(s, Dir::Out, e);
    if has_waiting(r) {
        return load_stamp(s, e, slot_index(r, r.tail));
    }
    0
}

// Where the oldest packet of OUT e lies.
pub fn oldest_at(s: &State, e: u8) -> u32
    ensures { result ≡ oldest_at (view s.now) e }
{
    let r = load_ep(s, Dir::Out, e);
    slot_addr(r, r.tail)
}

fn word(w: u8, x: u8, y: u8, z: u8) -> u32
    ensures { result ≡ w + x * 256 + y * 65536 + z * 16777216 }
{
    w as u32 + x as u32 * 256 + y as u32 * 65536 + z as u32 * 16777216
}

// A word of the buffer, lowest byte first; past its end 0.
pub fn word_at(buf: &[u8], at: usize) -> u32
    ensures { result ≡ word_at buf.now at }
{
    if buf.len() < 4 {
        return 0;
    }
    if buf.len() - 4 < at {
        return 0;
    }
    word(buf[at], buf[at + 1], buf[at + 2], buf[at + 3])
}

// Word k of EP0's buffer.
pub fn setup_word(s: &State, buf: &[u8], k: u8) -> u32
    ensures { result ≡ word_at buf.now ((view s.now).globals.ep0_buf + k * 4) }
{
    let g = load_globals(s);
    word_at(buf, g.ep0_buf as usize + k as usize * 4)
}

// The loaded packet went out (mod.rs 408-411, 606).
pub fn complete(s: &mut State, e: u8)
    ensures s_after { view s.new ≡ complete_on (view s.old) e }
    ensures s_unchanged { saved s.new ≡ saved s.old }
{
    let r = load_ep(s, Dir::In, e);
    let c = completed(r);
    store_ep(s, Dir::In, e, unloaded(c));
}

// The record of OUT e, stored where the answer is yes.
fn store_where(s: &mut State, e: u8, yes: bool, r: EpState)
    ensures s_after { view s.new ≡ cond yes (with_on (view s.old) Out e r)
        (view s.old) }
    ensures s_unchanged { saved s.new ≡ saved s.old }
{
    if yes {
        store_ep(s, Dir::Out, e, r);
    }
}

// The oldest packet is open, where one waits.
pub fn open_oldest(s: &mut State, e: u8)
    ensures s_after { view s.new ≡ open_on (view s.old) e }
    ensures s_unchanged { saved s.new ≡ saved s.old }
{
    let r = load_ep(s, Dir::Out, e);
    store_where(s, e, has_waiting(r), ring::opened(r));
}

// The open packet is read, where one is open (mod.rs 269).
pub fn close_oldest(s: &mut State, e: u8)
    ensures s_after { view s.new ≡ close_on (view s.old) e }
    ensures s_unchanged { saved s.new ≡ saved s.old }
{
    let r = load_ep(s, Dir::Out, e);
    store_where(s, e, is_on_half(r.open), closed(r));
}

// The oldest packet is read, where one waits.
pub fn take_oldest(s: &mut State, e: u8)
    ensures s_after { view s.new ≡ take_on (view s.old) e }
    ensures s_unchanged { saved s.new ≡ saved s.old }
{
    let r = load_ep(s, Dir::Out, e);
    store_where(s, e, has_waiting(r), closed(r));
}

// The oldest packet is being sent; where it lies (mod.rs 597-603).
pub fn send(s: &mut State, e: u8) -> u32
    ensures value { result ≡ send_addr (view s.old) e }
    ensures s_after { view s.new ≡ send_on (view s.old) e }
    ensures s_unchanged { saved s.new ≡ saved s.old }
{
    let r = load_ep(s, Dir::In, e);
    let at = slot_addr(r, r.tail);
    if has_waiting(r) {
        store_ep(s, Dir::In, e, loaded(r));
        return at;
    }
    at
}

// A length that is at most a slot's.
fn length16(n: usize, most: u16) -> u16
    requires { n ≤ most }
    ensures { result ≡ n }
{
    n as u16
}

// A packet into the head's slot of an isochronous IN, where it has room (mod.rs 382-395).
pub fn iso_in_enqueue(s: &mut State, buf: &mut [u8], e: u8, bytes: &[u8])
    ensures s_after { view s.new ≡ (enqueue_on e bytes.now
        (view s.old, buf.old)).0 }
    ensures buf_after { buf.new ≡ (enqueue_on e bytes.now (view s.old, buf.old)).1 }
    ensures s_unchanged { saved s.new ≡ saved s.old }
{
    let r = load_ep(s, Dir::In, e);
    let n = bytes.len();
    if !takes(r, n) {
        return;
    }
    let i = slot_index(r, r.head);
    store_len(s, Dir::In, e, i, length16(n, r.stride));
    store_ep(s, Dir::In, e, joined(r));
    copy_in(buf, slot_addr(r, r.head), bytes);
}

// Bytes into the slot of IN e, which has no ring; not more than the maximum.
pub fn fill(s: &State, buf: &mut [u8], e: u8, bytes: &[u8])
    ensures { buf.new ≡ filled_on (view s.now) e bytes.now buf.old }
{
    let r = load_ep(s, Dir::In, e);
    if is_on(r.iso) {
        return;
    }
    if (r.max_len as usize) < bytes.len() {
        return;
    }
    copy_in(buf, r.base, bytes);
}

// Bytes into EP0's slot.
pub fn fill0(s: &State, buf: &mut [u8], bytes: &[u8])
    ensures { buf.new ≡ filled_ep0 (view s.now) bytes.now buf.old }
{
    let g = load_globals(s);
    if (g.ep0_max as usize) < bytes.len() {
        return;
    }
    copy_in(buf, g.ep0_buf, bytes);
}
