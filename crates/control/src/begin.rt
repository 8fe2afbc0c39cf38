// The begins of the control pipe's stages.
ghost use Rattle.std.specs.Prelude.{◌≡◌, false, List, ℕ};
ghost use Rattle.regs.specs.declared.Dir.TheVariants.{Out};
ghost use Rattle.state.specs.Driver.{Driver};
ghost use Rattle.state.specs.State.{view, saved};
ghost use Rattle.script.specs.Answers.{resultless};
ghost use Rattle.script.specs.Control.{status_in, begin_setup, begin_data_out, begin_data_in, begin_accept};
ghost use Rattle.script.specs.Control.{begin_accept_set_address, begin_reject};
ghost use Rattle.script_ops.specs.Concrete.{go};
ghost use Rattle.script_ops.specs.Answers.{finished};
ghost use Rattle.control.specs.Points.{acked, loading, begun_as, LinkedBegun};

use crate::checks::{
    ACCEPT, DATA_OUT, SETUP, arm_out, begin_row, close_out, is_started, set_address, set_data_in,
    set_request,
};
use crate::points::{CLOSING, LOADED, STALL_IN, STATUS_LEN, WROTE, point};
use crate::{Begun, points};
use endpoint::common::{length16, set_armed, unready};
use regs::control_word::{ACK, DATA1, word_of};
use regs::{Access, Dir, Reg};
use script_ops::points::flag_of;
use script_ops::rings::fill0;
use script_ops::rows;
use state::{State, clear_wakes, load_globals};

// Begins `setup` (control.rs 70-80).
pub fn setup(s: &mut State) -> Begun
    ensures by_index { (b : List ℕ) → begun_as result (view s.new) b
        ≡ go {i = false} begin_setup (view s.old) b }
    ensures s_unchanged { saved s.new ≡ saved s.old }
    ensures linked_begun { LinkedBegun result }
{
    let g = load_globals(s);
    if is_started(g) {
        set_request(s, SETUP, 0);
        clear_wakes(s);
        return Begun::Ends(0);
    }
    Begun::Refused(rows::STAGE)
}

// OUT 0 answers: the stage's first packet is DATA1, for another the word is read.
fn ack_out(first: bool) -> Begun
    ensures b_value { (d : Driver) (b : List ℕ) → begun_as result d b ≡ go (finished (acked Out first)) d b }
    ensures linked_begun { LinkedBegun result }
{
    if first {
        let w = word_of(ACK, DATA1, false);
        return Begun::Asks(
            Access::Write(Reg::EpRxCtrl, 0, w as u32),
            point(WROTE, Dir::Out, false, 0),
        );
    }
    Begun::Asks(
        Access::Read(Reg::EpRxCtrl, 0),
        point(points::ACK, Dir::Out, false, 0),
    )
}

// `data_out`, 82-115, into a slice of n bytes.
pub fn data_out(s: &mut State, n: u32, first: bool) -> Begun
    ensures by_index { (b : List ℕ) → begun_as result (view s.new) b
        ≡ go {i = false} (begin_data_out n first) (view s.old) b }
    ensures s_unchanged { saved s.new ≡ saved s.old }
    ensures linked_begun { LinkedBegun result }
{
    let g = load_globals(s);
    let row = begin_row(g, n as usize);
    if row == 0 {
        let k = length16(n as usize, g.ep0_max);
        set_request(s, DATA_OUT, n);
        clear_wakes(s);
        arm_out(s, k);
        return ack_out(first);
    }
    Begun::Refused(row)
}

// EP0's packet of n bytes goes out; with the last one the status stage's OUT right away.
fn load_in(s: &mut State, n: u16, first: bool, last: bool) -> Begun
    ensures by_index { (b : List ℕ) → begun_as result (view s.new) b
        ≡ go (finished (loading n first last)) (view s.old) b }
    ensures s_unchanged { saved s.new ≡ saved s.old }
    ensures linked_begun { LinkedBegun result }
{
    if last {
        close_out(s);
        let w = word_of(ACK, DATA1, false);
        return Begun::Asks(
            Access::Write(Reg::EpRxCtrl, 0, w as u32),
            point(CLOSING, Dir::Out, first, n),
        );
    }
    set_armed(s, Dir::In, 0, 1);
    Begun::Asks(
        Access::Write(Reg::EpTLen, 0, n as u32),
        point(LOADED, Dir::Out, first, 0),
    )
}

// `data_in`, 117-161: the packet into EP0's slot.
pub fn data_in(s: &mut State, buf: &mut [u8], bytes: &[u8], first: bool, last: bool) -> Begun
    ensures buf_after { begun_as result (view s.new) buf.new
        ≡ go {i = false} (begin_data_in bytes.now first last) (view s.old) buf.old }
    ensures s_unchanged { saved s.new ≡ saved s.old }
    ensures linked_begun { LinkedBegun result }
{
    let g = load_globals(s);
    let row = begin_row(g, bytes.len());
    if row == 0 {
        let n = length16(bytes.len(), g.ep0_max);
        set_data_in(s, n as u32, flag_of(last), 1);
        clear_wakes(s);
        fill0(s, buf, bytes);
        unready(s, Dir::In, 0);
        return load_in(s, n, first, last);
    }
    Begun::Refused(row)
}

// The status stage's IN, of no bytes.
fn status_in(s: &mut State) -> Begun
    ensures by_index { (b : List ℕ) → begun_as result (view s.new) b
        ≡ go {i = false} (resultless status_in) (view s.old) b }
    ensures s_unchanged { saved s.new ≡ saved s.old }
    ensures linked_begun { LinkedBegun result }
{
    clear_wakes(s);
    unready(s, Dir::In, 0);
    Begun::Asks(
        Access::Write(Reg::EpTLen, 0, 0),
        point(STATUS_LEN, Dir::Out, false, 0),
    )
}

// Begins `accept` (control.rs 26-46, 163-166).
pub fn accept(s: &mut State) -> Begun
    ensures by_index { (b : List ℕ) → begun_as result (view s.new) b
        ≡ go {i = false} begin_accept (view s.old) b }
    ensures s_unchanged { saved s.new ≡ saved s.old }
    ensures linked_begun { LinkedBegun result }
{
    let row = begin_row(load_globals(s), 0);
    if row == 0 {
        set_request(s, ACCEPT, 0);
        return status_in(s);
    }
    Begun::Refused(row)
}

// Begins `accept_set_address` (control.rs 179-186).
pub fn accept_set_address(s: &mut State, address: u32) -> Begun
    ensures by_index { (b : List ℕ) → begun_as result (view s.new) b
        ≡ go {i = false} (begin_accept_set_address address) (view s.old) b }
    ensures s_unchanged { saved s.new ≡ saved s.old }
    ensures linked_begun { LinkedBegun result }
{
    let row = begin_row(load_globals(s), 0);
    if row == 0 {
        set_address(s, (address % 256) as u8);
        return status_in(s);
    }
    Begun::Refused(row)
}

// Begins `reject` (control.rs 168-177).
pub fn reject(s: &mut State) -> Begun
    ensures by_index { (b : List ℕ) → begun_as result (view s.new) b
        ≡ go {i = false} begin_reject (view s.old) b }
    ensures s_unchanged { saved s.new ≡ saved s.old }
    ensures linked_begun { LinkedBegun result }
{
    let g = load_globals(s);
    if is_started(g) {
        set_request(s, 0, 0);
        clear_wakes(s);
        set_armed(s, Dir::Out, 0, 0);
        set_armed(s, Dir::In, 0, 0);
        return Begun::Asks(
            Access::Read(Reg::EpTxCtrl, 0),
            point(STALL_IN, Dir::Out, false, 0),
        );
    }
    Begun::Refused(rows::STAGE)
}
