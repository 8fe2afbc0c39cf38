// Arrivals of isochronous OUT rings, the slots that an enabled endpoint starts with, and the reset of every record.
// Every function is total: any number is safe.
ghost use Rattle.std.specs.Prelude.{◌≡◌, cond, eqb};
ghost use Rattle.regs.specs.declared.Dir.TheVariants.{Out};
ghost use Rattle.state.specs.Driver.{ep_on, with_on};
ghost use Rattle.state.specs.Ep.{reset_of};
ghost use Rattle.state.specs.State.{view, saved};
ghost use Rattle.script_ops.specs.Rings.{written_on, recorded_on, arm_by, arrived_at, arrive_on, renewed_on, slot_step};
ghost use Rattle.script_ops.specs.Rings.{reset_below, reset_all};

use crate::records::receives;
use crate::rings::is_on;
use regs::Dir;
use ring::marks::iso_out_arm;
use ring::{armed, capped, has_room_out, slot_addr, slot_index};
use state::{
    EpState, State, clear_all_stamps, clear_stamps, load_ep, load_globals, store_ep, store_globals,
    store_len, store_stamp,
};

// The length of the packet in slot i (mod.rs 499), and its microframe, that of the interrupt under way.
fn write_packet(s: &mut State, e: u8, i: u8, len: u16, entered: u16)
    requires { entered ≡ (view s.old).globals.entered }
    ensures s_after { view s.new ≡ written_on (view s.old) e i len }
    ensures s_unchanged { saved s.new ≡ saved s.old }
{
    store_len(s, Dir::Out, e, i, len);
    store_stamp(s, e, i, entered);
}

// An admitted packet is recorded (mod.rs 498-500). The endpoint's record is `r`.
fn record(s: &mut State, e: u8, r: EpState, len: u16, entered: u16)
    requires r_value { r ≡ ep_on (view s.old) Out e }
    requires entered_value { entered ≡ (view s.old).globals.entered }
    ensures s_after { view s.new ≡ recorded_on (view s.old) e len }
    ensures s_unchanged { saved s.new ≡ saved s.old }
{
    if has_room_out(r) {
        write_packet(s, e, slot_index(r, r.head), len, entered);
        return;
    }
}

// The record `r` is stored with the slot of counter i armed: marked up to the endpoint's maximum, its address recorded
// (mod.rs 547-556).
fn arm(s: &mut State, buf: &mut [u8], e: u8, r: EpState, i: u8) -> u32
    ensures value { result ≡ (arm_by e r i (view s.old, buf.old)).0 }
    ensures s_after { view s.new ≡ (arm_by e r i (view s.old, buf.old)).1.0 }
    ensures buf_after { buf.new ≡ (arm_by e r i (view s.old, buf.old)).1.1 }
    ensures s_unchanged { saved s.new ≡ saved s.old }
{
    let at = slot_addr(r, i);
    store_ep(s, Dir::Out, e, armed(r, at));
    iso_out_arm(buf, at, r.max_len);
    at
}

// An arrival of `len` bytes, not above the maximum: the packet is admitted or turned away (mod.rs 491-507), the head's
// slot armed, and the record stored once.
fn arrived(s: &mut State, buf: &mut [u8], e: u8, r: EpState, len: u16, entered: u16) -> u32
    requires r_value { r ≡ ep_on (view s.old) Out e }
    requires entered_value { entered ≡ (view s.old).globals.entered }
    ensures value { result ≡ (arrived_at e len (view s.old, buf.old)).0 }
    ensures s_after { view s.new ≡ (arrived_at e len (view s.old, buf.old)).1.0 }
    ensures buf_after { buf.new ≡ (arrived_at e len (view s.old, buf.old)).1.1 }
    ensures s_unchanged { saved s.new ≡ saved s.old }
{
    record(s, e, r, len, entered);
    let x = ring::arrived(r);
    arm(s, buf, e, x, x.head)
}

// A packet of OUT e arrived: it is admitted or turned away, and the next slot armed, whose address is handed out.
pub fn arrive(s: &mut State, buf: &mut [u8], e: u8, n: u16) -> u32
    ensures value { result ≡ (arrive_on e n (view s.old, buf.old)).0 }
    ensures s_after { view s.new ≡ (arrive_on e n (view s.old, buf.old)).1.0 }
    ensures buf_after { buf.new ≡ (arrive_on e n (view s.old, buf.old)).1.1 }
    ensures s_unchanged { saved s.new ≡ saved s.old }
{
    let g = load_globals(s);
    let r = load_ep(s, Dir::Out, e);
    if receives(g, e) {
        let len = capped(r, n);
        return arrived(s, buf, e, r, len, g.entered);
    }
    r.armed_slot
}

// The record reset (mod.rs 1279), every stamp gone.
fn renew(s: &mut State, e: u8)
    ensures s_after { view s.new ≡ renewed_on (view s.old) e }
    ensures s_unchanged { saved s.new ≡ saved s.old }
{
    let r = load_ep(s, Dir::Out, e);
    clear_stamps(s, e);
    store_ep(s, Dir::Out, e, state::by_loan(r));
}

// Before the first of the slots, the last.
fn renew_first(s: &mut State, e: u8, k: u8)
    ensures s_after { view s.new ≡ cond (eqb k 15) (renewed_on (view s.old) e)
        (view s.old) }
    ensures s_unchanged { saved s.new ≡ saved s.old }
{
    if k == 15 {
        renew(s, e);
        return;
    }
}

// Slot k of an isochronous OUT that is enabled or disabled, from slot 15 down, is armed (mod.rs 1292-1294).
pub fn slot_step(s: &mut State, buf: &mut [u8], e: u8, k: u8) -> u32
    ensures value { result ≡ (slot_step e k (view s.old, buf.old)).0 }
    ensures s_after { view s.new ≡ (slot_step e k (view s.old, buf.old)).1.0 }
    ensures buf_after { buf.new ≡ (slot_step e k (view s.old, buf.old)).1.1 }
    ensures s_unchanged { saved s.new ≡ saved s.old }
{
    let r = load_ep(s, Dir::Out, e);
    if is_on(r.iso) {
        renew_first(s, e, k);
        let q = load_ep(s, Dir::Out, e);
        return arm(s, buf, e, q, k);
    }
    r.armed_slot
}

// An endpoint's record reset, in one direction.
fn reset_one(s: &mut State, dir: Dir, e: u8)
    ensures s_after { view s.new ≡ with_on (view s.old) dir e
        (reset_of (ep_on (view s.old) dir e)) }
    ensures s_unchanged { saved s.new ≡ saved s.old }
{
    let r = load_ep(s, dir, e);
    store_ep(s, dir, e, state::by_loan(r));
}

// Every record reset.
fn reset_eps(s: &mut State)
    ensures s_after { view s.new ≡ reset_below 16 (view s.old) }
    ensures s_unchanged { saved s.new ≡ saved s.old }
{
    let mut e: u8 = 0;
    while e < 16 {
        reset_one(s, Dir::Out, e);
        reset_one(s, Dir::In, e);
        e += 1;
    }
}

// The bus's reset: every record reset, no setup is ready (mod.rs 1213-1216), every stamp gone.
pub fn reset_all(s: &mut State)
    ensures s_after { view s.new ≡ reset_all (view s.old) }
    ensures s_unchanged { saved s.new ≡ saved s.old }
{
    reset_eps(s);
    clear_all_stamps(s);
    let mut g = load_globals(s);
    g.setup_ready = 0;
    store_globals(s, g);
}
