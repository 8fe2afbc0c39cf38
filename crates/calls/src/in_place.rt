// Packets in place: the calls without accesses, which pass while an interrupt is under way. Rows 4, 5 and 9 to 14 are
// those of `iso_out_open_close` and `iso_in_queue`. Of an answer that shows a packet the bytes are the slots'.
ghost use Rattle.std.specs.Prelude.{◌≡◌, List, ℕ};
ghost use Rattle.state.specs.Driver.{Driver};
ghost use Rattle.state.specs.State.{view, saved};
ghost use Rattle.script.specs.Machine.{begin, ended};
ghost use Rattle.script.specs.Calls.{aside, Open, Close, Queue};
ghost use Rattle.isochronous.specs.Packets as packets;
ghost use Rattle.machine.specs.Suspended.{machine_of, drive, answer_of, lent_or, BufferUnchangedOnRow1};
ghost use Rattle.calls.specs.Shown.{ShownAt};

use answer::Step;
use isochronous::open_close::Packet;
use machine::saved::may_pass;
use machine::stops::slots_fit;
use script_ops::rows;
use state::State;

fn told(p: Packet) -> Step
    ensures by_index { (b : List ℕ) (d : Driver) → answer_of result b d ≡ ended (packets.answer_of p b) }
    ensures shown_at { (d : Driver) (e : ℕ) → packets.ShownAt p d e → ShownAt result d e }
{
    match p {
        Packet::Refused(n) => Step::Refused(n),
        Packet::Shown(at, n, stamp) => Step::Shown(at, n, stamp),
        Packet::Ok => Step::Ends(0, 0),
    }
}

// `iso_out_take` (mod.rs 253-271), its first part.
pub fn open(s: &mut State, slots: &[u8], e: u32) -> Step
    ensures by_index { (a : List ℕ) → (
      answer_of result slots.now (view s.new),
      machine_of s.new (lent_or (view s.old) slots.now slots.now a),
    ) ≡ drive (begin (aside (Open e))) (machine_of s.old a) slots.now }
    ensures shown_at { ShownAt result (view s.new) e }
    ensures s_unchanged { saved s.new ≡ saved s.old }
{
    if slots_fit(s, slots) {
        if may_pass(s) {
            let x = isochronous::open_close::iso_out_take(s, slots, e);
            return told(x);
        }
        return Step::Refused(rows::UNDER_WAY);
    }
    Step::Refused(rows::SLOTS_LENGTH)
}

// The second half of `iso_out_take` (mod.rs 253-271): gives the open packet's slot back.
pub fn close(s: &mut State, e: u32) -> Step
    ensures by_index { (a b : List ℕ) → (
      answer_of result b (view s.new),
      machine_of s.new b,
    ) ≡ drive (begin (aside (Close e))) (machine_of s.old a) b }
    ensures s_unchanged { saved s.new ≡ saved s.old }
{
    if may_pass(s) {
        let x = isochronous::open_close::iso_out_take_close(s, e);
        return told(x);
    }
    Step::Refused(rows::UNDER_WAY)
}

// `iso_in_prime` (mod.rs 342-395): copies a packet into a free IN slot, to be sent later.
pub fn queue(s: &mut State, slots: &mut [u8], e: u32, bytes: &[u8]) -> Step
    ensures by_index { (a : List ℕ) → (
      answer_of result slots.new (view s.new),
      machine_of s.new (lent_or (view s.old) slots.old slots.new a),
    ) ≡ drive (begin (aside (Queue e bytes.now))) (machine_of s.old a) slots.old }
    ensures buffer_unchanged_on_row1 { BufferUnchangedOnRow1 (view s.old) slots.old slots.new }
    ensures s_unchanged { saved s.new ≡ saved s.old }
{
    if slots_fit(s, slots) {
        if may_pass(s) {
            let x = isochronous::queue::iso_in_prime(s, slots, e, bytes);
            return told(x);
        }
        return Step::Refused(rows::UNDER_WAY);
    }
    Step::Refused(rows::SLOTS_LENGTH)
}
