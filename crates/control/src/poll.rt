// The polls of the control pipe's stages.
ghost use Rattle.std.specs.Prelude.{◌≡◌, true, false, cond, List, [], ℕ, eqb, length};
ghost use Rattle.state.specs.Driver.{Driver};
ghost use Rattle.state.specs.State.{view, saved};
ghost use Rattle.script.specs.Tree.{ends};
ghost use Rattle.script.specs.Answers.{Refused, Done};
ghost use Rattle.script.specs.Control.{poll_setup, poll_data_out, poll_data_in, poll_accept, aborted_else, take_out};
ghost use Rattle.script.specs.Control.{take_closing, take_in};
ghost use Rattle.script.specs.Script.{ret};
ghost use Rattle.script.specs.Answers.{NotYet};
ghost use Rattle.script_ops.specs.Concrete.{go};
ghost use Rattle.script_ops.specs.Answers.{lent_after};
ghost use Rattle.control.specs.Points.{polled_as, LinkedPolled};
ghost use Rattle.control.specs.Rows.{Polls};

use crate::Polled;
use crate::checks::{ACCEPT, DATA_IN, DATA_OUT, SETUP, poll_row, set_data_in, set_request};
use crate::points::{WROTE, point};
use endpoint::common::{fetch, unready};
use regs::{Access, Dir, Reg};
use script_ops::rings::is_on;
use script_ops::rows;
use state::{
    Control, Globals, State, clear_wakes, load_control, load_ep, load_globals, store_globals,
};

// Not ready yet, or a setup packet ends the stage (`complete`, control.rs 48-61).
fn wait_on(s: &mut State) -> Polled
    ensures by_index { (out b : List ℕ) → polled_as result out (view s.new) b
        ≡ go {i = false} (aborted_else (ret NotYet)) (view s.old) b }
    ensures s_unchanged { saved s.new ≡ saved s.old }
    ensures linked_polled { LinkedPolled result }
{
    let g = load_globals(s);
    if is_on(g.setup_ready) {
        set_request(s, 0, 0);
        return Polled::Refused(rows::DISABLED);
    }
    Polled::NotYet
}

// The setup packet, once it is there.
fn take_setup(s: &mut State, g: Globals) -> Polled
    requires { (g ≡ (view s.old).globals) × Polls (view s.old) (view s.old).control 1 }
    ensures by_index { (b : List ℕ) → polled_as result [] (view s.new) b
        ≡ go {i = false} poll_setup (view s.old) b }
    ensures s_unchanged { saved s.new ≡ saved s.old }
    ensures linked_polled { LinkedPolled result }
{
    if is_on(g.setup_ready) {
        let mut h = g;
        h.setup_ready = 0;
        store_globals(s, h);
        set_request(s, 0, 0);
        return Polled::Setup(g.setup_low, g.setup_high);
    }
    Polled::NotYet
}

// Polls `setup` (control.rs 70-80).
pub fn poll_setup(s: &mut State) -> Polled
    ensures by_index { (b : List ℕ) → polled_as result [] (view s.new) b
        ≡ go {i = false} poll_setup (view s.old) b }
    ensures s_unchanged { saved s.new ≡ saved s.old }
    ensures linked_polled { LinkedPolled result }
{
    let g = load_globals(s);
    let row = poll_row(g, load_control(s), SETUP);
    if row == 0 {
        return take_setup(s, g);
    }
    Polled::Refused(row)
}

// The status stage's end: the address changes only then.
fn take_accept(s: &mut State, c: Control) -> Polled
    requires { Polls (view s.old) c 4 }
    ensures by_index { (b : List ℕ) → polled_as result [] (view s.new) b
        ≡ go {i = false} poll_accept (view s.old) b }
    ensures s_unchanged { saved s.new ≡ saved s.old }
    ensures linked_polled { LinkedPolled result }
{
    let r = load_ep(s, Dir::In, 0);
    if is_on(r.ready) {
        unready(s, Dir::In, 0);
        set_request(s, 0, 0);
        if !is_on(c.sets_address) {
            return Polled::Done(0);
        }
        clear_wakes(s);
        let a = c.address % 128;
        return Polled::Asks(
            Access::Write(Reg::DevAd, 0, a as u32),
            point(WROTE, Dir::Out, false, 0),
        );
    }
    wait_on(s)
}

// Polls `accept` and `accept_set_address` (control.rs 26-46).
pub fn poll_accept(s: &mut State) -> Polled
    ensures by_index { (b : List ℕ) → polled_as result [] (view s.new) b
        ≡ go {i = false} poll_accept (view s.old) b }
    ensures s_unchanged { saved s.new ≡ saved s.old }
    ensures linked_polled { LinkedPolled result }
{
    let c = load_control(s);
    let row = poll_row(load_globals(s), c, ACCEPT);
    if row == 0 {
        return take_accept(s, c);
    }
    Polled::Refused(row)
}

// The closing OUT must be empty.
fn closed(n: u16) -> Polled
    ensures b_value { (d : Driver) (b : List ℕ) → polled_as result [] d b
        ≡ ends (cond (eqb n 0) (Done []) (Refused 10)) (d, b) }
    ensures linked_polled { LinkedPolled result }
{
    if n == 0 {
        return Polled::Done(0);
    }
    Polled::Refused(rows::LENGTH)
}

// The second wait of the last data_in, for the closing OUT; `both`: together with the data packet's completion.
fn take_closing(s: &mut State, both: bool, c: Control) -> Polled
    ensures by_index { (b : List ℕ) → polled_as result [] (view s.new) b
        ≡ go {i = false} (take_closing both c) (view s.old) b }
    ensures s_unchanged { saved s.new ≡ saved s.old }
    ensures linked_polled { LinkedPolled result }
{
    let r = load_ep(s, Dir::Out, 0);
    if is_on(r.ready) {
        unready(s, Dir::Out, 0);
        if both {
            unready(s, Dir::In, 0);
            set_request(s, 0, 0);
            return closed(r.len);
        }
        set_request(s, 0, 0);
        return closed(r.len);
    }
    let g = load_globals(s);
    if is_on(g.setup_ready) {
        set_request(s, 0, 0);
        return Polled::Refused(rows::DISABLED);
    }
    if both {
        unready(s, Dir::In, 0);
        set_data_in(s, c.length, c.last, 2);
        return Polled::NotYet;
    }
    Polled::NotYet
}

// The first wait, for the data packet.
fn take_in(s: &mut State, c: Control) -> Polled
    ensures by_index { (b : List ℕ) → polled_as result [] (view s.new) b
        ≡ go {i = false} (take_in c) (view s.old) b }
    ensures s_unchanged { saved s.new ≡ saved s.old }
    ensures linked_polled { LinkedPolled result }
{
    let r = load_ep(s, Dir::In, 0);
    if is_on(r.ready) {
        if is_on(c.last) {
            return take_closing(s, true, c);
        }
        unready(s, Dir::In, 0);
        set_request(s, 0, 0);
        return Polled::Done(0);
    }
    wait_on(s)
}

// Polls `data_in` (control.rs 117-161).
pub fn poll_data_in(s: &mut State) -> Polled
    ensures by_index { (b : List ℕ) → polled_as result [] (view s.new) b
        ≡ go {i = false} poll_data_in (view s.old) b }
    ensures s_unchanged { saved s.new ≡ saved s.old }
    ensures linked_polled { LinkedPolled result }
{
    let c = load_control(s);
    let row = poll_row(load_globals(s), c, DATA_IN);
    if row == 0 {
        if c.wait == 2 {
            return take_closing(s, false, c);
        }
        return take_in(s, c);
    }
    Polled::Refused(row)
}

// The packet out of EP0's slot, no longer than the slice.
fn take_out(s: &mut State, buf: &[u8], out: &mut [u8]) -> Polled
    ensures buf_after { polled_as result out.new (view s.new) buf.now
        ≡ go {i = false} (take_out (length out.old)) (view s.old) buf.now }
    ensures out_after { out.new
        ≡ lent_after (go {i = false} (take_out (length out.old)) (view s.old) buf.now)
        out.old }
    ensures s_unchanged { saved s.new ≡ saved s.old }
    ensures linked_polled { LinkedPolled result }
{
    let r = load_ep(s, Dir::Out, 0);
    if is_on(r.ready) {
        unready(s, Dir::Out, 0);
        if out.len() < r.len as usize {
            set_request(s, 0, 0);
            return Polled::Refused(rows::LENGTH);
        }
        let g = load_globals(s);
        let n = fetch(buf, g.ep0_buf, out, r.len);
        set_request(s, 0, 0);
        return Polled::Done(n);
    }
    wait_on(s)
}

// `data_out`, 82-115; the slice has its begin's length, else row 10.
pub fn poll_data_out(s: &mut State, buf: &[u8], out: &mut [u8]) -> Polled
    ensures buf_after { polled_as result out.new (view s.new) buf.now
        ≡ go {i = false} (poll_data_out (length out.old)) (view s.old) buf.now }
    ensures out_after { out.new ≡ lent_after
        (go {i = false} (poll_data_out (length out.old)) (view s.old) buf.now)
        out.old }
    ensures s_unchanged { saved s.new ≡ saved s.old }
    ensures linked_polled { LinkedPolled result }
{
    let c = load_control(s);
    let row = poll_row(load_globals(s), c, DATA_OUT);
    if row == 0 {
        if c.length as usize == out.len() {
            return take_out(s, buf, out);
        }
        unready(s, Dir::Out, 0);
        set_request(s, 0, 0);
        return Polled::Refused(rows::LENGTH);
    }
    Polled::Refused(row)
}
