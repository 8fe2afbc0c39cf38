// Start-up makes the state afresh, as at power-on.
ghost use Rattle.std.specs.Prelude.{◌≡◌, ◌+◌, ◌≤◌, replicate};
ghost use Rattle.state.specs.Ep.{new_ep};
ghost use Rattle.state.specs.Driver.{no_ep, no_request, with_eps, with_lens, with_paced, with_requests, with_globals};
ghost use Rattle.state.specs.Driver.{with_allocator, with_control};
ghost use Rattle.state.specs.State.{view, saved};
ghost use Rattle.state.specs.Fresh.{filled, fresh_driver, fresh_globals, fresh_allocator, no_control, nothing};

use crate::codec::{read_ep, write_ep, write_request};
use crate::wakes::fresh_wakes;
use crate::{
    Allocator, Control, EPS, EpState, Globals, LENS, PACED, REQUESTS, Request, Saved, State,
    clear_all_stamps, sized, store_allocator, store_control, store_globals, store_saved,
};
use bits::le_bytes::put16;

// A record of zeros.
fn no_ep() -> EpState
    ensures { result ≡ no_ep }
{
    let mut r = EpState::NEW;
    r.slots = 0;
    r.last_frame = 0;
    r
}

fn clear_eps(s: &mut State)
    ensures s_after { view s.new ≡ with_eps (view s.old)
        (filled (view s.old).eps 0 32 no_ep) }
    ensures s_unchanged { saved s.new ≡ saved s.old }
{
    let mut k: usize = 0;
    while k < 32 {
        sized(s);
        write_ep(s, EPS + k * 32, no_ep());
        k += 1;
    }
}

// Of each cleared record the two fields that are not 0 in a new one.
fn new_eps(s: &mut State)
    requires { (view s.old).eps ≡ replicate 32 no_ep }
    ensures s_after { view s.new ≡ with_eps (view s.old)
        (filled (view s.old).eps 0 32 new_ep) }
    ensures s_unchanged { saved s.new ≡ saved s.old }
{
    let mut k: usize = 0;
    while k < 32 {
        sized(s);
        let mut r = read_ep(s, EPS + k * 32);
        r.slots = 1;
        r.last_frame = EpState::NO_FRAME;
        write_ep(s, EPS + k * 32, r);
        k += 1;
    }
}

// All records cleared at once, by a memset, then two fields of each: a third of what a whole new record for each takes.
fn fill_eps(s: &mut State)
    ensures s_after { view s.new ≡ with_eps (view s.old)
        (filled (view s.old).eps 0 32 new_ep) }
    ensures s_unchanged { saved s.new ≡ saved s.old }
{
    clear_eps(s);
    new_eps(s);
}

// The n lengths from a.
fn fill_lengths(s: &mut State, a: usize, n: usize, v: u16)
    requires { a + n ≤ 512 }
    ensures s_after { view s.new ≡ with_lens (view s.old)
        (filled (view s.old).lens a n v) }
    ensures s_unchanged { saved s.new ≡ saved s.old }
{
    let mut k: usize = 0;
    while k < n {
        sized(s);
        put16(s, LENS + (a + k) * 2, 0, v);
        k += 1;
    }
}

fn fill_paced(s: &mut State)
    ensures s_after { view s.new ≡ with_paced (view s.old)
        (filled (view s.old).paced 0 16 0x1800) }
    ensures s_unchanged { saved s.new ≡ saved s.old }
{
    let mut k: usize = 0;
    while k < 16 {
        sized(s);
        put16(s, PACED + k * 2, 0, EpState::NO_FRAME);
        k += 1;
    }
}

fn fill_requests(s: &mut State)
    ensures s_after { view s.new ≡ with_requests (view s.old)
        (filled (view s.old).requests 0 32 no_request) }
    ensures s_unchanged { saved s.new ≡ saved s.old }
{
    let mut k: usize = 0;
    while k < 32 {
        sized(s);
        write_request(
            s,
            REQUESTS + k * 8,
            Request {
                begun: 0,
                length: 0,
            },
        );
        k += 1;
    }
}

fn fresh_globals(s: &mut State, callback: u8)
    ensures { view s.new ≡ with_globals (view s.old) (fresh_globals callback) }
{
    store_globals(
        s,
        Globals {
            stage: 1,
            callback: callback,
            power: 0,
            setup_ready: 0,
            setup_low: 0,
            setup_high: 0,
            int_en: 0,
            ep_config: 0,
            ep_type: 0,
            iso_out_eps: 0,
            iso_in_every: 0,
            iso_in_paced: 0,
            sof_frame: EpState::NO_FRAME,
            ep0_buf: 0,
            ep0_max: 0,
            entered: 0,
        },
    );
}

fn fresh_allocator(s: &mut State, size: u16, count: u16)
    ensures { view s.new ≡ with_allocator (view s.old) (fresh_allocator size count) }
{
    store_allocator(
        s,
        Allocator {
            size: size,
            count: count,
            next: 0,
            taken_out: 0,
            taken_in: 0,
            iso_nums: 0,
            other_nums: 0,
            allocated_out: 0,
            allocated_in: 0,
        },
    );
}

fn fresh_control(s: &mut State)
    ensures { view s.new ≡ with_control (view s.old) no_control }
{
    store_control(
        s,
        Control {
            sort: 0,
            length: 0,
            last: 0,
            wait: 0,
            sets_address: 0,
            address: 0,
        },
    );
}

// No operation is under way.
pub fn nothing() -> Saved
    ensures { result ≡ nothing }
{
    Saved {
        tag: 0,
        sub: 0,
        site: 0,
        flag: 0,
        busy: 0,
        late: 0,
        len_ok: 0,
        st: 0,
        now: 0,
        ep: 0,
        len: 0,
        frame: 0,
        eps: 0,
        n: 0,
        value: 0,
    }
}

fn fresh_saved(s: &mut State)
    ensures s_unchanged { view s.new ≡ view s.old }
    ensures s_after { saved s.new ≡ nothing }
{
    store_saved(s, nothing());
}

// Makes the state that an accepted start-up leaves.
pub fn fresh(s: &mut State, size: u16, count: u16, callback: u8)
    ensures s_after { view s.new ≡ fresh_driver size count callback }
    ensures s_after_2 { saved s.new ≡ nothing }
{
    fill_eps(s);
    fill_lengths(s, 0, 512, 0);
    clear_all_stamps(s);
    fill_paced(s);
    fill_requests(s);
    fresh_globals(s, callback);
    fresh_allocator(s, size, count);
    fresh_control(s);
    fresh_wakes(s);
    fresh_saved(s);
}
