ghost use Rattle.std.specs.Prelude.{◌≡◌, true, false, ◌≤◌, ◌%◌};
ghost use Rattle.bits.specs.Bit.{bit_is_set};
ghost use Rattle.state.specs.Driver.{with_wakes};
ghost use Rattle.state.specs.State.{view, saved};
ghost use Rattle.state.specs.Wakes.{wake_code, bus_code, codes_from, every_endpoint, woken, all_woken};
ghost use Rattle.alloc.specs.Alloc.{allocate_of, allocate_ep0_of};
ghost use Rattle.script.specs.Statics.{iso_outs};
ghost use Rattle.script_ops.specs.Records.{iso_out, enabled_on, with_sets, record_given, sets_given, given_to};
ghost use Rattle.script_ops.specs.Records.{allocated_on, started_with, allocated_ep0};
ghost use Rattle.script_ops.specs.Rings.{place_on, switched_on, type_step, config_step};

use crate::rings::is_on;
use crate::rows::STARTED;
use alloc::Answer;
use bits::mask_has;
use regs::Dir;
use regs::enables::out_enabled;
use state::{Globals, State};

// Adds the endpoint's task to the list of wake-ups.
pub fn wake(s: &mut State, dir: Dir, e: u8)
    ensures s_after { view s.new ≡ with_wakes (view s.old)
        (woken (wake_code dir e) (view s.old).wakes) }
    ensures s_unchanged { saved s.new ≡ saved s.old }
{
    let code = state::wake_code(dir, e);
    state::wake(s, code);
}

// Adds the bus's task to the list of wake-ups.
pub fn wake_bus(s: &mut State)
    ensures s_after { view s.new ≡ with_wakes (view s.old)
        (woken bus_code (view s.old).wakes) }
    ensures s_unchanged { saved s.new ≡ saved s.old }
{
    state::wake(s, 32);
}

// The sixteen codes from a.
fn wake_sixteen(s: &mut State, a: u8)
    requires { a ≤ 16 }
    ensures s_after { view s.new ≡ with_wakes (view s.old)
        (all_woken (codes_from a 16) (view s.old).wakes) }
    ensures s_unchanged { saved s.new ≡ saved s.old }
{
    let mut k: u8 = 0;
    while k < 16 {
        state::wake(s, a + k);
        k += 1;
    }
}

// OUT 0 to 15, then IN 0 to 15.
pub fn wake_all(s: &mut State)
    ensures s_after { view s.new ≡ with_wakes (view s.old)
        (all_woken every_endpoint (view s.old).wakes) }
    ensures s_unchanged { saved s.new ≡ saved s.old }
{
    wake_sixteen(s, 16);
    wake_sixteen(s, 0);
}

// Whether this is an isochronous OUT.
pub fn iso_out(s: &State, dir: Dir, e: u8) -> bool
    ensures { result ≡ iso_out (view s.now) dir e }
{
    match dir {
        Dir::Out => {
            let r = state::load_ep(s, Dir::Out, e);
            is_on(r.iso)
        }
        Dir::In => false,
    }
}

// The kept ep_config bit; of an isochronous OUT, whose bit is set in a row, nothing.
pub fn set_enabled(s: &mut State, dir: Dir, e: u8, on: bool)
    ensures s_after { view s.new ≡ enabled_on (view s.old) dir e on }
    ensures s_unchanged { saved s.new ≡ saved s.old }
{
    if iso_out(s, dir, e) {
        return;
    }
    let g = state::load_globals(s);
    state::set_ep_config(s, regs::enables::with_on(g.ep_config, dir, e, on));
}

// Is OUT e an enabled isochronous endpoint, by the kept words (mod.rs 95-101, 467)?
pub fn receives(g: Globals, e: u8) -> bool
    ensures { result ≡ bit_is_set (iso_outs g) (e % 16) }
{
    mask_has(out_enabled(g.ep_config, g.iso_out_eps), e)
}

// Whether endpoint e is an enabled isochronous OUT.
pub fn receiving(s: &State, e: u8) -> bool
    ensures { result ≡ bit_is_set (iso_outs (view s.now).globals) (e % 16) }
{
    receives(state::load_globals(s), e)
}

// The address of the endpoint's buffer, which of OUT is from now on the armed slot.
pub fn place(s: &mut State, dir: Dir, e: u8) -> u32
    ensures value { result ≡ (place_on dir e (view s.old)).0 }
    ensures s_after { view s.new ≡ (place_on dir e (view s.old)).1 }
    ensures s_unchanged { saved s.new ≡ saved s.old }
{
    let r = state::load_ep(s, dir, e);
    match dir {
        Dir::In => r.base,
        Dir::Out => {
            if receiving(s, e) {
                return r.armed_slot;
            }
            state::store_ep(s, Dir::Out, e, ring::armed(r, r.base));
            r.base
        }
    }
}

// A word with the bit of an isochronous OUT; of any other endpoint as it was.
fn switched(s: &State, e: u8, on: bool, word: u32) -> u32
    ensures { result ≡ switched_on (view s.now) e on word }
{
    let r = state::load_ep(s, Dir::Out, e);
    if is_on(r.iso) {
        return regs::enables::with_on(word, Dir::Out, e, on);
    }
    word
}

// ep_type's bit in the row of an isochronous OUT.
pub fn type_step(s: &mut State, e: u8, on: bool) -> u32
    ensures value { result ≡ (type_step e on (view s.old)).0 }
    ensures s_after { view s.new ≡ (type_step e on (view s.old)).1 }
    ensures s_unchanged { saved s.new ≡ saved s.old }
{
    let g = state::load_globals(s);
    let v = switched(s, e, on, g.ep_type);
    state::set_ep_type(s, v);
    v
}

// And ep_config's, the row's last.
pub fn config_step(s: &mut State, e: u8, on: bool) -> u32
    ensures value { result ≡ (config_step e on (view s.old)).0 }
    ensures s_after { view s.new ≡ (config_step e on (view s.old)).1 }
    ensures s_unchanged { saved s.new ≡ saved s.old }
{
    let g = state::load_globals(s);
    let v = switched(s, e, on, g.ep_config);
    state::set_ep_config(s, v);
    v
}

// iso_out_eps and iso_in_every with the endpoint that was allocated.
fn with_sets(mut g: Globals, dir: Dir, kind: u8, interval: u32, e: u8) -> Globals
    ensures { result ≡ with_sets dir kind interval e g }
{
    if alloc::number::is_iso(kind) {
        match dir {
            Dir::Out => {
                g.iso_out_eps = bits::mask_with(g.iso_out_eps, e, true);
                g
            }
            Dir::In => {
                if interval < 2 {
                    g.iso_in_every = bits::mask_with(g.iso_in_every, e, true);
                    return g;
                }
                g
            }
        }
    } else {
        g
    }
}

// The record of the endpoint that was allocated.
fn give_record(s: &mut State, dir: Dir, kind: u8, maximum: u16, e: u8, base: u32, slots: u8)
    ensures s_after { view s.new ≡ record_given dir kind maximum e base slots (view s.old) }
    ensures s_unchanged { saved s.new ≡ saved s.old }
{
    let r = state::load_ep(s, dir, e);
    let b = state::load_allocator(s);
    state::store_ep(
        s,
        dir,
        e,
        alloc::endpoint(r, kind, maximum, base, b.size, slots),
    );
}

// And the sets.
fn give_sets(s: &mut State, dir: Dir, kind: u8, interval: u32, e: u8)
    ensures s_after { view s.new ≡ sets_given dir kind interval e (view s.old) }
    ensures s_unchanged { saved s.new ≡ saved s.old }
{
    let g = state::load_globals(s);
    state::store_globals(s, with_sets(g, dir, kind, interval, e));
}

// What an answer to an allocation makes of the records and the sets.
fn given(s: &mut State, dir: Dir, kind: u8, maximum: u16, interval: u32, a: Answer)
    ensures s_after { view s.new ≡ given_to dir kind maximum interval a (view s.old) }
    ensures s_unchanged { saved s.new ≡ saved s.old }
{
    match a {
        Answer::Refused(_n) => {}
        Answer::Given(e, base, slots) => {
            give_record(s, dir, kind, maximum, e, base, slots);
            give_sets(s, dir, kind, interval, e);
        }
    }
}

// A maximum that is at most a buffer's size.
fn maximum16(n: u32, most: u16) -> u16
    requires { n ≤ most }
    ensures { result ≡ n }
{
    n as u16
}

// An endpoint is allocated, or refused: the number, its buffers, its record (mod.rs 953-1043).
pub fn allocate(
    s: &mut State,
    dir: Dir,
    kind: u8,
    address: u32,
    maximum: u32,
    interval: u32,
) -> Answer
    ensures value { result ≡ (allocate_of (view s.old).allocator kind address maximum dir).answer }
    ensures s_after { view s.new ≡ allocated_on (view s.old) dir kind address maximum interval }
    ensures s_unchanged { saved s.new ≡ saved s.old }
{
    let b = state::load_allocator(s);
    let size = b.size;
    let z = alloc::alloc_endpoint(b, kind, address, maximum, dir);
    let a = z.answer;
    state::store_allocator(s, z.after);
    if (size as u32) < maximum {
        return a;
    }
    let m = maximum16(maximum, size);
    given(s, dir, kind, m, interval, a);
    a
}

// EP0's buffer was given: the stage after its start, and no power event yet.
fn started(s: &mut State, maximum: u16, a: Answer)
    ensures s_after { view s.new ≡ started_with maximum a (view s.old) }
    ensures s_unchanged { saved s.new ≡ saved s.old }
{
    match a {
        Answer::Refused(_n) => {}
        Answer::Given(_e, base, _slots) => {
            let mut g = state::load_globals(s);
            g.stage = STARTED;
            g.power = 0;
            g.ep0_buf = base;
            g.ep0_max = maximum;
            state::store_globals(s, g);
        }
    }
}

// EP0's buffer, or a refusal (mod.rs 1144-1149).
pub fn allocate0(s: &mut State, maximum: u32) -> Answer
    ensures value { result ≡ (allocate_ep0_of (view s.old).allocator maximum).answer }
    ensures s_after { view s.new ≡ allocated_ep0 (view s.old) maximum }
    ensures s_unchanged { saved s.new ≡ saved s.old }
{
    let b = state::load_allocator(s);
    let size = b.size;
    let z = alloc::allocate_ep0(b, maximum);
    let a = z.answer;
    state::store_allocator(s, z.after);
    if (size as u32) < maximum {
        return a;
    }
    let m = maximum16(maximum, size);
    started(s, m, a);
    a
}
