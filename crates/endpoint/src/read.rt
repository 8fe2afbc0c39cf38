// `read`, endpoint.rs 83-142.
ghost use Rattle.std.specs.Prelude.{◌≡◌, true, false, List, ℕ, min, eqb, length};
ghost use Rattle.regs.specs.declared.Dir.TheVariants.{Out};
ghost use Rattle.state.specs.State.{view, saved};
ghost use Rattle.script.specs.Endpoint.{begin_read, too_long, take_iso, take_ready};
ghost use Rattle.script_ops.specs.Records.{plain_of};
ghost use Rattle.script_ops.specs.Concrete.{go};
ghost use Rattle.script_ops.specs.Answers.{lent_after};
ghost use Rattle.script_ops.specs.Rows.{refusal_of};
ghost use Rattle.endpoint.specs.Points.{begun_as, polled_as, read_on, LinkedBegun};

use crate::checks::{end_request, is_enabled, set_request, wait_on};
use crate::common::{fetch, set_armed, unready};
use crate::points::{ACK, point};
use crate::{Begun, Polled};
use regs::{Access, Dir, Reg};
use script_ops::rings::{is_on, is_on_word, next_len, oldest_at, take_oldest, waiting};
use script_ops::rows;
use script_ops::rows::{low, refusal};
use state::{EpState, State, clear_wakes, load_ep, load_request};

// 84-123, past rows 4 and 5: an isochronous OUT needs no arming, nor does one with a packet.
fn start_read(s: &mut State, e: u8, n: u32) -> Begun
    requires { eqb (refusal_of (view s.old) Out e) 0 ≡ true }
    ensures by_index { (b : List ℕ) → begun_as result (view s.new) b
        ≡ go {i = false} (begin_read e n) (view s.old) b }
    ensures s_unchanged { saved s.new ≡ saved s.old }
    ensures linked_begun { LinkedBegun result }
{
    if !is_enabled(s, Dir::Out, e) {
        return Begun::Refused(rows::DISABLED);
    }
    let r = load_ep(s, Dir::Out, e);
    if n < r.max_len as u32 {
        return Begun::Refused(rows::LENGTH);
    }
    set_request(s, Dir::Out, e, n);
    clear_wakes(s);
    if is_on(r.iso) {
        return Begun::Ends(0);
    }
    if is_on(r.ready) {
        return Begun::Ends(0);
    }
    set_armed(s, Dir::Out, e, 1);
    Begun::Asks(Access::Read(Reg::EpRxCtrl, e), point(ACK, Dir::Out, e))
}

// Into a slice of n bytes.
pub fn begin_read(s: &mut State, e: u32, n: u32) -> Begun
    ensures by_index { (b : List ℕ) → begun_as result (view s.new) b
        ≡ go {i = false} (begin_read e n) (view s.old) b }
    ensures s_unchanged { saved s.new ≡ saved s.old }
    ensures linked_begun { LinkedBegun result }
{
    let row = refusal(s, Dir::Out, e);
    if row == 0 {
        return start_read(s, low(e), n);
    }
    Begun::Refused(row)
}

// The shorter of a packet and a slice.
fn shorter(len: u16, n: usize) -> u16
    ensures { result ≡ min len n }
{
    if n < len as usize {
        return n as u16;
    }
    len
}

// 96-113: drain the ring the interrupt fills.
fn take_iso(s: &mut State, buf: &[u8], e: u8, out: &mut [u8]) -> Polled
    ensures buf_after { polled_as result out.new (view s.new) buf.now
        ≡ go {i = false} (take_iso e (length out.old)) (view s.old) buf.now }
    ensures out_after { out.new
        ≡ lent_after (go {i = false} (take_iso e (length out.old)) (view s.old) buf.now)
        out.old }
    ensures s_unchanged { saved s.new ≡ saved s.old }
{
    if !is_enabled(s, Dir::Out, e) {
        end_request(s, Dir::Out, e);
        return Polled::Refused(rows::DISABLED);
    }
    if !waiting(s, Dir::Out, e) {
        return Polled::NotYet;
    }
    let at = oldest_at(s, e);
    let len = next_len(s, Dir::Out, e);
    let k = shorter(len, out.len());
    let n = fetch(buf, at, out, k);
    take_oldest(s, e);
    end_request(s, Dir::Out, e);
    Polled::Done(n)
}

// A packet longer than the slice or than the endpoint's maximum.
fn too_long(n: usize, r: EpState) -> bool
    ensures { result ≡ too_long n (plain_of r) }
{
    if n < r.len as usize {
        return true;
    }
    r.max_len < r.len
}

// 125-141.
fn take_ready(s: &mut State, buf: &[u8], e: u8, out: &mut [u8], r: EpState) -> Polled
    ensures buf_after { polled_as result out.new (view s.new) buf.now
        ≡ go {i = false} (take_ready e (length out.old) (plain_of r)) (view s.old)
        buf.now }
    ensures out_after { out.new ≡ lent_after
        (go {i = false} (take_ready e (length out.old) (plain_of r)) (view s.old)
        buf.now) out.old }
    ensures s_unchanged { saved s.new ≡ saved s.old }
{
    if is_on(r.ready) {
        unready(s, Dir::Out, e);
        if too_long(out.len(), r) {
            end_request(s, Dir::Out, e);
            return Polled::Refused(rows::LENGTH);
        }
        let t = load_ep(s, Dir::Out, e);
        let n = fetch(buf, t.base, out, r.len);
        end_request(s, Dir::Out, e);
        return Polled::Done(n);
    }
    wait_on(s, Dir::Out, e)
}

// Past rows 4 and 5; the slice has its begin's length, else row 10.
fn take_read(s: &mut State, buf: &[u8], e: u8, out: &mut [u8]) -> Polled
    requires { eqb (refusal_of (view s.old) Out e) 0 ≡ true }
    ensures buf_after { polled_as result out.new (view s.new) buf.now
        ≡ read_on e out.old s.old buf.now }
    ensures out_after { out.new ≡ lent_after (read_on e out.old s.old buf.now)
        out.old }
    ensures s_unchanged { saved s.new ≡ saved s.old }
{
    let q = load_request(s, Dir::Out, e);
    if !is_on_word(q.begun) {
        return Polled::Refused(rows::NOT_BEGUN);
    }
    if q.length as usize == out.len() {
        let r = load_ep(s, Dir::Out, e);
        if is_on(r.iso) {
            return take_iso(s, buf, e, out);
        }
        return take_ready(s, buf, e, out, r);
    }
    unready(s, Dir::Out, e);
    end_request(s, Dir::Out, e);
    Polled::Refused(rows::LENGTH)
}

// Polls `read` (endpoint.rs 83-142): the packet at the front of `out` once it is there.
pub fn poll_read(s: &mut State, buf: &[u8], e: u32, out: &mut [u8]) -> Polled
    ensures buf_after { polled_as result out.new (view s.new) buf.now
        ≡ read_on e out.old s.old buf.now }
    ensures out_after { out.new ≡ lent_after (read_on e out.old s.old buf.now)
        out.old }
    ensures s_unchanged { saved s.new ≡ saved s.old }
{
    let row = refusal(s, Dir::Out, e);
    if row == 0 {
        return take_read(s, buf, low(e), out);
    }
    Polled::Refused(row)
}
