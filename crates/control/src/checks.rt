// The checks before a stage (rows 4, 15 and 10), the pipe's request, and EP0's record where a stage begins.
ghost use Rattle.std.specs.Prelude.{◌≡◌, eqb};
ghost use Rattle.regs.specs.declared.Dir.TheVariants.{Out};
ghost use Rattle.state.specs.Driver.{with_control};
ghost use Rattle.state.specs.State.{view, saved};
ghost use Rattle.script.specs.Statics.{with_ready, with_len, with_armed};
ghost use Rattle.script.specs.Control.{request_of, data_in_of, address_of};
ghost use Rattle.endpoint.specs.Records.{modified_on};
ghost use Rattle.control.specs.Rows.{begin_row, poll_row};

use regs::Dir;
use script_ops::rings::is_on;
use script_ops::rows;
use state::{Control, Globals, State, load_ep, store_control, store_ep};

pub const SETUP: u8 = 1;

pub const DATA_OUT: u8 = 2;

pub const DATA_IN: u8 = 3;

pub const ACCEPT: u8 = 4;

// After EP0's start (row 4 turned round)?
pub fn is_started(g: Globals) -> bool
    ensures { result ≡ eqb g.stage 2 }
{
    g.stage == rows::STARTED
}

// The row that stops the begin of a stage of n bytes: 4, 10 above EP0's maximum, 9 where a setup packet waits; else 0.
pub fn begin_row(g: Globals, n: usize) -> u8
    ensures { result ≡ begin_row g n }
{
    if is_started(g) {
        if (g.ep0_max as usize) < n {
            return rows::LENGTH;
        }
        if is_on(g.setup_ready) {
            return rows::DISABLED;
        }
        return 0;
    }
    rows::STAGE
}

// The row that stops the poll of a stage: 4, 15 where the request is of another sort; else 0.
pub fn poll_row(g: Globals, c: Control, sort: u8) -> u8
    ensures { result ≡ poll_row g c sort }
{
    if is_started(g) {
        if c.sort == sort {
            return 0;
        }
        return rows::NOT_BEGUN;
    }
    rows::STAGE
}

// The request that an accepted begin leaves; of sort 0, none.
pub fn set_request(s: &mut State, sort: u8, n: u32)
    ensures s_after { view s.new ≡ with_control (view s.old) (request_of sort n) }
    ensures s_unchanged { saved s.new ≡ saved s.old }
{
    store_control(
        s,
        Control {
            sort,
            length: n,
            last: 0,
            wait: 0,
            sets_address: 0,
            address: 0,
        },
    );
}

// Records that a data_in is waited for: its length, whether it is the last, what is awaited.
pub fn set_data_in(s: &mut State, n: u32, last: u8, wait: u8)
    ensures s_after { view s.new ≡ with_control (view s.old) (data_in_of n last wait) }
    ensures s_unchanged { saved s.new ≡ saved s.old }
{
    store_control(
        s,
        Control {
            sort: DATA_IN,
            length: n,
            last,
            wait,
            sets_address: 0,
            address: 0,
        },
    );
}

// Records the address that a status stage is to set.
pub fn set_address(s: &mut State, address: u8)
    ensures s_after { view s.new ≡ with_control (view s.old) (address_of address) }
    ensures s_unchanged { saved s.new ≡ saved s.old }
{
    store_control(
        s,
        Control {
            sort: ACCEPT,
            length: 0,
            last: 0,
            wait: 0,
            sets_address: 1,
            address,
        },
    );
}

// OUT 0 awaits a packet of at most n bytes.
pub fn arm_out(s: &mut State, n: u16)
    ensures s_after { view s.new ≡ modified_on Out 0 (λ p. with_armed 1 (with_len n (with_ready 0 p)))
        (view s.old) }
    ensures s_unchanged { saved s.new ≡ saved s.old }
{
    let mut r = load_ep(s, Dir::Out, 0);
    r.ready = 0;
    r.len = n;
    r.armed = 1;
    store_ep(s, Dir::Out, 0, r);
}

// OUT 0 awaits the status stage's empty packet.
pub fn close_out(s: &mut State)
    ensures s_after { view s.new ≡ modified_on Out 0 (λ p. with_len 0 (with_ready 0 p))
        (view s.old) }
    ensures s_unchanged { saved s.new ≡ saved s.old }
{
    let mut r = load_ep(s, Dir::Out, 0);
    r.ready = 0;
    r.len = 0;
    store_ep(s, Dir::Out, 0, r);
}
