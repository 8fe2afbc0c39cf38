// `write`, endpoint.rs 146-194.
ghost use Rattle.std.specs.Prelude.{◌≡◌, true, false, List, [], ℕ, eqb};
ghost use Rattle.regs.specs.declared.Dir.TheVariants.{In};
ghost use Rattle.state.specs.State.{view, saved};
ghost use Rattle.script.specs.Statics.{with_ready, with_armed};
ghost use Rattle.script.specs.Endpoint.{begin_write, poll_write, put_iso, sent_ready};
ghost use Rattle.script_ops.specs.Records.{plain_of};
ghost use Rattle.script_ops.specs.Concrete.{go};
ghost use Rattle.endpoint.specs.Records.{modified_on};
ghost use Rattle.script_ops.specs.Rows.{refusal_of};
ghost use Rattle.endpoint.specs.Points.{begun_as, polled_as, LinkedBegun};

use crate::checks::{end_request, is_enabled, set_request, wait_on};
use crate::common::{length16, unready};
use crate::points::{LOADED, point};
use crate::{Begun, Polled};
use regs::{Access, Dir, Reg};
use script_ops::rings::{fill, is_on, is_on_word, iso_in_enqueue, room};
use script_ops::rows;
use script_ops::rows::{low, refusal};
use state::{EpState, State, clear_wakes, load_ep, load_request, store_ep};

// A packet is loaded.
fn arm_in(s: &mut State, e: u8)
    ensures s_after { view s.new ≡ modified_on In e (λ p. with_armed 1 (with_ready 0 p))
        (view s.old) }
    ensures s_unchanged { saved s.new ≡ saved s.old }
{
    let mut r = load_ep(s, Dir::In, e);
    r.ready = 0;
    r.armed = 1;
    store_ep(s, Dir::In, e, r);
}

// 147-180, past rows 4 and 5: an isochronous IN's packet is queued by the poll, any other's goes into its slot.
fn start_write(s: &mut State, buf: &mut [u8], e: u8, bytes: &[u8]) -> Begun
    requires { eqb (refusal_of (view s.old) In e) 0 ≡ true }
    ensures buf_after { begun_as result (view s.new) buf.new
        ≡ go {i = false} (begin_write e bytes.now) (view s.old) buf.old }
    ensures s_unchanged { saved s.new ≡ saved s.old }
    ensures linked_begun { LinkedBegun result }
{
    if !is_enabled(s, Dir::In, e) {
        return Begun::Refused(rows::DISABLED);
    }
    let r = load_ep(s, Dir::In, e);
    if (r.max_len as usize) < bytes.len() {
        return Begun::Refused(rows::LENGTH);
    }
    let n = length16(bytes.len(), r.max_len);
    set_request(s, Dir::In, e, n as u32);
    clear_wakes(s);
    if is_on(r.iso) {
        return Begun::Ends(0);
    }
    fill(s, buf, e, bytes);
    arm_in(s, e);
    Begun::Asks(
        Access::Write(Reg::EpTLen, e, n as u32),
        point(LOADED, Dir::Out, e),
    )
}

// Begins `write` (endpoint.rs 146-194).
pub fn begin_write(s: &mut State, buf: &mut [u8], e: u32, bytes: &[u8]) -> Begun
    ensures buf_after { begun_as result (view s.new) buf.new
        ≡ go {i = false} (begin_write e bytes.now) (view s.old) buf.old }
    ensures s_unchanged { saved s.new ≡ saved s.old }
    ensures linked_begun { LinkedBegun result }
{
    let row = refusal(s, Dir::In, e);
    if row == 0 {
        return start_write(s, buf, low(e), bytes);
    }
    Begun::Refused(row)
}

// 157-171: queue it; wait while the ring is full.
fn put_iso(s: &mut State, buf: &mut [u8], e: u8, bytes: &[u8]) -> Polled
    ensures buf_after { polled_as result [] (view s.new) buf.new
        ≡ go {i = false} (put_iso e bytes.now) (view s.old) buf.old }
    ensures s_unchanged { saved s.new ≡ saved s.old }
{
    if !is_enabled(s, Dir::In, e) {
        end_request(s, Dir::In, e);
        return Polled::Refused(rows::DISABLED);
    }
    if !room(s, e, bytes.len()) {
        return Polled::NotYet;
    }
    iso_in_enqueue(s, buf, e, bytes);
    end_request(s, Dir::In, e);
    Polled::Done(0)
}

// 182-193.
fn sent_ready(s: &mut State, e: u8, r: EpState) -> Polled
    ensures by_index { (b : List ℕ) → polled_as result [] (view s.new) b
        ≡ go {i = false} (sent_ready e (plain_of r)) (view s.old) b }
    ensures s_unchanged { saved s.new ≡ saved s.old }
{
    if is_on(r.ready) {
        unready(s, Dir::In, e);
        end_request(s, Dir::In, e);
        return Polled::Done(0);
    }
    wait_on(s, Dir::In, e)
}

// Past rows 4 and 5; the packet has its begin's length, else row 10.
fn take_write(s: &mut State, buf: &mut [u8], e: u8, bytes: &[u8]) -> Polled
    requires { eqb (refusal_of (view s.old) In e) 0 ≡ true }
    ensures buf_after { polled_as result [] (view s.new) buf.new
        ≡ go {i = false} (poll_write e bytes.now) (view s.old) buf.old }
    ensures s_unchanged { saved s.new ≡ saved s.old }
{
    let q = load_request(s, Dir::In, e);
    if !is_on_word(q.begun) {
        return Polled::Refused(rows::NOT_BEGUN);
    }
    if q.length as usize == bytes.len() {
        let r = load_ep(s, Dir::In, e);
        if is_on(r.iso) {
            return put_iso(s, buf, e, bytes);
        }
        return sent_ready(s, e, r);
    }
    unready(s, Dir::In, e);
    end_request(s, Dir::In, e);
    Polled::Refused(rows::LENGTH)
}

// Polls `write` (endpoint.rs 146-194).
pub fn poll_write(s: &mut State, buf: &mut [u8], e: u32, bytes: &[u8]) -> Polled
    ensures buf_after { polled_as result [] (view s.new) buf.new
        ≡ go {i = false} (poll_write e bytes.now) (view s.old) buf.old }
    ensures s_unchanged { saved s.new ≡ saved s.old }
{
    let row = refusal(s, Dir::In, e);
    if row == 0 {
        return take_write(s, buf, low(e), bytes);
    }
    Polled::Refused(row)
}
