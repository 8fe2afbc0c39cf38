// Reads and writes, each a begin and a poll. Rows 4, 5, 9, 10 and 15 are `endpoint`'s.
ghost use Rattle.std.specs.Prelude.{length};
ghost use Rattle.script.specs.Calls.{BeginRead, PollRead, BeginWrite, PollWrite};
ghost use Rattle.machine.specs.CallContracts.{OtherCall, SlottedCall, PolledCall};

use answer::Step;
use machine::halts::{begun_endpoint, polled_endpoint};
use machine::saved::is_idle;
use machine::stops::slots_fit;
use script_ops::rows;
use state::State;

// `read` (endpoint.rs 83-142), into a slice of n bytes.
pub fn begin_read(s: &mut State, e: u32, n: u32) -> Step
    ensures { OtherCall (BeginRead e n) result s.old s.new }
{
    if is_idle(s) {
        let x = endpoint::begin_read(s, e, n);
        return begun_endpoint(s, x);
    }
    Step::Refused(rows::UNDER_WAY)
}

// The packet at the front of `out`.
pub fn poll_read(s: &mut State, slots: &[u8], e: u32, out: &mut [u8]) -> Step
    ensures { PolledCall (PollRead e (length out.old)) result s.old slots.now
        out.old s.new out.new }
{
    if slots_fit(s, slots) {
        if is_idle(s) {
            let x = endpoint::poll_read(s, slots, e, out);
            return polled_endpoint(x);
        }
        return Step::Refused(rows::UNDER_WAY);
    }
    Step::Refused(rows::SLOTS_LENGTH)
}

// Begins `write` (endpoint.rs 146-194): hands a packet to the chip, or waits for room in the ring.
pub fn begin_write(s: &mut State, slots: &mut [u8], e: u32, bytes: &[u8]) -> Step
    ensures { SlottedCall (BeginWrite e bytes.now) result s.old slots.old
        s.new slots.new }
{
    if slots_fit(s, slots) {
        if is_idle(s) {
            let x = endpoint::begin_write(s, slots, e, bytes);
            return begun_endpoint(s, x);
        }
        return Step::Refused(rows::UNDER_WAY);
    }
    Step::Refused(rows::SLOTS_LENGTH)
}

// Polls `write` (endpoint.rs 146-194): done once the packet went through, or was queued.
pub fn poll_write(s: &mut State, slots: &mut [u8], e: u32, bytes: &[u8]) -> Step
    ensures { SlottedCall (PollWrite e bytes.now) result s.old slots.old
        s.new slots.new }
{
    if slots_fit(s, slots) {
        if is_idle(s) {
            let x = endpoint::poll_write(s, slots, e, bytes);
            return polled_endpoint(x);
        }
        return Step::Refused(rows::UNDER_WAY);
    }
    Step::Refused(rows::SLOTS_LENGTH)
}
