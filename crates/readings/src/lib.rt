// Readings that follow each other, brought by one call: the points in between are neither stored nor loaded, row 1 is
// tested once and no answer is made for them. Where a number would be refused, or another row stops the call, nothing
// is changed, and the calls are made one by one (crate `usbhs_c`, together.rt).
#![tactic(auto)]

pub mod looks; // looks.rt: looks at a SIE that is still busy
pub mod frames; // frames.rt: the transfer's flag is cleared, and frame_no

ghost use Rattle.std.specs.Prelude.{◌≡◌, true, false, List, ℕ, eqb};
ghost use Rattle.regs.specs.Registers.{fits_in};
ghost use Rattle.regs.specs.Flags as Flags;
ghost use Rattle.regs.specs.declared.Access.TheVariants as Access;
ghost use Rattle.regs.specs.declared.Reg.TheVariants as Reg;
ghost use Rattle.state.specs.State.{view, saved};
ghost use Rattle.interrupt.specs.Points.{denote, meaning};
ghost use Rattle.interrupt.specs.declared.Point.TheVariants as Point;
ghost use Rattle.interrupt.specs.declared.Next.TheVariants as Next;
ghost use Rattle.machine.specs.Suspended.{decode, slots_fit};
ghost use Rattle.machine.specs.Rows.{is_idle, stop_of};
ghost use Rattle.readings.specs.Readings.{lent};
ghost use Rattle.readings.specs.Passing.{EntersAs, PassesAs, ServesAs};
ghost use Rattle.readings.specs.PassingLaws.{Opened};

use answer::loads::site_byte;
use frame::{Frame, microframe_index};
use interrupt::flags::after_flags;
use interrupt::interrupt_entry::after_len;
use interrupt::loads::setup_at;
use interrupt::stands::{stand_flags, stand_mis};
use interrupt::wait::{byte, short};
use machine::saved::tag;
use machine::stops::{slots_fit, stop};
use regs::registers::fits;
use regs::{flags, mis_status};
use state::{State, clear_wakes, load_globals, store_globals};

// How far the interrupt came with frame_no and int_fg.
#[derive(Clone, Copy)]
pub enum Entered {
    No, // nothing is changed
    Flags, // int_fg is awaited still
    Mis, // a transfer: mis_st is
}

// How far a transfer came with mis_st, int_st and rx_len.
#[derive(Clone, Copy)]
pub enum Passed {
    No, // nothing is changed
    Word(u64), // to the answer with this word
}

// How far the interrupt came with all five.
#[derive(Clone, Copy)]
pub enum Served {
    No, // nothing is changed
    Flags(u64), // with frame_no and int_fg to the answer with this word
    Transfer(u64), // with all of them
}

// The tag of an interrupt's point, and the number of the one at which mis_st is awaited.
const INTERRUPT: u8 = 6;

const MIS: u8 = 6;

// Lends an array as a slice, by which its borrower learns how long the list is.
fn sized(_s: &[u8]) {}

// Does the interrupt begin, and would frame_no be taken?
fn may_enter(s: &State, slots: &[u8], frame: u32) -> bool
    ensures { result ≡ true → (eqb (stop_of (is_idle (decode (saved s.now))) 2
        (view s.now).globals.stage) 0 ≡ true)
        × (slots_fit (view s.now) slots.now ≡ true) × (fits_in frame 16 ≡ true) }
{
    let n = stop(s, 2);
    if n == 0 {
        if slots_fit(s, slots) {
            return fits(frame, 16);
        }
        return false;
    }
    false
}

// The microframe in which the interrupt began (`after_frame`, crate `irq_entry`).
fn keep_frame(s: &mut State, v: u32)
    requires { fits_in v 16 ≡ true }
    ensures by_index { (b : List ℕ) → meaning (Next.Asks (Access.Read Reg.IntFg 0) Point.Flags) (view s.new) b
        ≡ denote Point.Frame v (view s.old, b) }
    ensures s_unchanged { (view s.new).allocator ≡ (view s.old).allocator }
{
    let i = microframe_index(Frame(short(v)));
    let mut g = load_globals(s);
    g.entered = i.0;
    store_globals(s, g);
}

// Would int_fg be taken, and is a transfer's the first flag that is served?
fn is_transfer(word: u32) -> bool
    ensures { result ≡ true → (fits_in word 6 ≡ true) × (Flags.bus_rst word ≡ false) × (Flags.suspend word ≡ false)
        × (Flags.fifo_ov word ≡ false) × (Flags.hst_sof word ≡ false) × (Flags.transfer word ≡ true) }
{
    if fits(word, 6) {
        let f = byte(word);
        if flags::bus_rst(f) {
            return false;
        }
        if flags::suspend(f) {
            return false;
        }
        if flags::fifo_ov(f) {
            return false;
        }
        if flags::hst_sof(f) {
            return false;
        }
        return flags::transfer(f);
    }
    false
}

// The wake-ups are cleared, the microframe is kept.
fn open(s: &mut State, frame: u32)
    requires { fits_in frame 16 ≡ true }
    ensures { Opened frame s.old s.new }
{
    clear_wakes(s);
    sized(s);
    keep_frame(s, frame);
    sized(s);
}

// The interrupt's begin with frame_no and, of a transfer, int_fg.
pub fn enter(s: &mut State, slots: &[u8], frame: u32, word: u32) -> Entered
    ensures { (i : ℕ) (time : List ℕ) → EntersAs result i frame word
        (lent s.old slots.now time) (lent s.new slots.now time) }
{
    if may_enter(s, slots, frame) {
        open(s, frame);
        if is_transfer(word) {
            stand_mis(s, flags::setup_act(byte(word)));
            return Entered::Mis;
        }
        stand_flags(s);
        return Entered::Flags;
    }
    Entered::No
}

// Would the three numbers be taken?
fn are_taken(mis: u32, st: u32, len: u32) -> bool
    ensures { result ≡ true → (fits_in mis 2 ≡ true) × (fits_in st 7 ≡ true) × (fits_in len 16 ≡ true) }
{
    if fits(mis, 2) {
        if fits(st, 7) {
            return fits(len, 16);
        }
        return false;
    }
    false
}

// Does a transfer await mis_st, and would it come through?
fn may_pass(s: &State, slots: &[u8], mis: u32, st: u32, len: u32) -> bool
    ensures { result ≡ true → ((saved s.now).tag ≡ 6) × ((saved s.now).site ≡ 6)
        × (slots_fit (view s.now) slots.now ≡ true)
        × (fits_in mis 2 ≡ true) × (fits_in st 7 ≡ true) × (fits_in len 16 ≡ true) }
{
    if tag(s) == INTERRUPT {
        if site_byte(s) == MIS {
            if slots_fit(s, slots) {
                return are_taken(mis, st, len);
            }
            return false;
        }
        return false;
    }
    false
}

// A transfer's mis_st, int_st and rx_len, a transaction on the bus or none: the flag is to be cleared, unless NAK comes
// first (mod.rs 656-667).
pub fn pass(s: &mut State, slots: &[u8], mis: u32, st: u32, len: u32) -> Passed
    ensures { (i : ℕ) (time : List ℕ) → PassesAs result i mis st len
        (lent s.old slots.now time) (lent s.new slots.now time) }
{
    if may_pass(s, slots, mis, st, len) {
        sized(s);
        let setup = setup_at(s);
        let busy = !mis_status::sie_free(byte(mis));
        return Passed::Word(after_len(s, setup, busy, byte(st), len));
    }
    Passed::No
}

// The interrupt's begin with all five: frame_no, int_fg and, of a transfer, mis_st, int_st and rx_len. Where int_fg has
// another flag too, or none, the last three are not looked at.
pub fn serve(
    s: &mut State,
    slots: &[u8],
    frame: u32,
    word: u32,
    mis: u32,
    st: u32,
    len: u32,
) -> Served
    ensures { (i : ℕ) (time : List ℕ) → ServesAs result i frame word mis st len
        (lent s.old slots.now time) (lent s.new slots.now time) }
{
    if may_enter(s, slots, frame) {
        if is_transfer(word) {
            if are_taken(mis, st, len) {
                open(s, frame);
                let setup = flags::setup_act(byte(word));
                let busy = !mis_status::sie_free(byte(mis));
                return Served::Transfer(after_len(s, setup, busy, byte(st), len));
            }
            return Served::No;
        }
        if fits(word, 6) {
            open(s, frame);
            return Served::Flags(after_flags(s, word));
        }
        return Served::No;
    }
    Served::No
}
