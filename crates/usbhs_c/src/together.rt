// Readings that follow each other, brought by one call: it comes to as many calls of one access each, as long as the
// answer asks for the next of them.
ghost use Rattle.std.specs.Prelude.{◌≡◌, [], ◌∷◌};
ghost use Rattle.regs.specs.declared.Access.TheVariants as Access;
ghost use Rattle.regs.specs.declared.Reg.TheVariants as Reg;
ghost use Rattle.regs.specs.Registers.{number_of};
ghost use Rattle.answer.specs.declared.Step.{Step};
ghost use Rattle.answer.specs.declared.Step.TheVariants as Step;
ghost use Rattle.answer.specs.Word.{read_word, Encodes, Worded};
ghost use Rattle.script.specs.Machine.{continue};
ghost use Rattle.readings.specs.Readings.{reading, lent, Brings};
ghost use Rattle.usbhs_c.specs.Calls.{AnswersCharged};
ghost use Rattle.usbhs_c.specs.Readings.{AnswersInterrupt, AnswersTransfer, AnswersInterruptTransfer};
ghost use Rattle.usbhs_c.specs.Readings.{AnswersReleased, AnswersLooks};

use crate::{usbhs_begin_interrupt, usbhs_continue};
use bus_time::Time;
use readings::{Entered, Passed, Served};
use regs::Reg;
use regs::registers::number;
use state::State;

// The word that asks for a register's reading.
fn read_word(r: Reg) -> u64
    ensures { result ≡ read_word (number_of r) 0 }
{
    1 + number(r) as u64 * 0x100
}

// A continue, where the readings are brought one by one; apart from the others, so that it is there once.
fn go_on(s: &mut State, slots: &mut [u8], time: &mut Time, driver: u32, value: u32) -> u64
    ensures { AnswersCharged result driver (continue value) s.old
        s.new slots.old slots.new time.old time.new }
{
    usbhs_continue(s, slots, time, driver, value)
}

// Two readings, each brought by a continue as long as the word asks for it.
fn bring(
    s: &mut State,
    slots: &mut [u8],
    time: &mut Time,
    driver: u32,
    word: u64,
    first: Reg,
    a: u32,
    second: Reg,
    b: u32,
) -> u64
    ensures { (x : Step) → Encodes word x → Worded result
        (λ y. Brings driver (reading first a ∷ reading second b ∷ []) x
        (lent s.old slots.old time.old) y
        (lent s.new slots.new time.new)) }
{
    if word == read_word(first) {
        let next = go_on(s, slots, time, driver, a);
        if next == read_word(second) {
            return go_on(s, slots, time, driver, b);
        }
        return next;
    }
    word
}

// From mis_st on.
fn bring_mis(
    s: &mut State,
    slots: &mut [u8],
    time: &mut Time,
    driver: u32,
    word: u64,
    mis: u32,
    st: u32,
    len: u32,
) -> u64
    ensures { (x : Step) → Encodes word x → Worded result (λ y. Brings driver
        (reading Reg.MisSt mis ∷ reading Reg.IntSt st ∷ reading Reg.RxLen len ∷ []) x
        (lent s.old slots.old time.old) y
        (lent s.new slots.new time.new)) }
{
    if word == read_word(Reg::MisSt) {
        let next = go_on(s, slots, time, driver, mis);
        return bring(
            s,
            slots,
            time,
            driver,
            next,
            Reg::IntSt,
            st,
            Reg::RxLen,
            len,
        );
    }
    word
}

// From int_fg on.
fn bring_flags(
    s: &mut State,
    slots: &mut [u8],
    time: &mut Time,
    driver: u32,
    word: u64,
    flags: u32,
    mis: u32,
    st: u32,
    len: u32,
) -> u64
    ensures { (x : Step) → Encodes word x → Worded result (λ y. Brings driver
        (reading Reg.IntFg flags ∷ reading Reg.MisSt mis ∷ reading Reg.IntSt st ∷ reading Reg.RxLen len ∷ []) x
        (lent s.old slots.old time.old) y
        (lent s.new slots.new time.new)) }
{
    if word == read_word(Reg::IntFg) {
        let next = go_on(s, slots, time, driver, flags);
        return bring_mis(s, slots, time, driver, next, mis, st, len);
    }
    word
}

// All five.
fn bring_all(
    s: &mut State,
    slots: &mut [u8],
    time: &mut Time,
    driver: u32,
    word: u64,
    frame: u32,
    flags: u32,
    mis: u32,
    st: u32,
    len: u32,
) -> u64
    ensures { (x : Step) → Encodes word x → Worded result (λ y. Brings driver
        (reading Reg.FrameNo frame ∷ reading Reg.IntFg flags ∷ reading Reg.MisSt mis ∷ reading Reg.IntSt st
        ∷ reading Reg.RxLen len ∷ []) x
        (lent s.old slots.old time.old) y
        (lent s.new slots.new time.new)) }
{
    if word == read_word(Reg::FrameNo) {
        let next = go_on(s, slots, time, driver, frame);
        return bring_flags(s, slots, time, driver, next, flags, mis, st, len);
    }
    word
}

// Frame_no.
fn bring_frame(
    s: &mut State,
    slots: &mut [u8],
    time: &mut Time,
    driver: u32,
    word: u64,
    frame: u32,
) -> u64
    ensures { (x : Step) → Encodes word x → Worded result (λ y. Brings driver (reading Reg.FrameNo frame ∷ []) x
        (lent s.old slots.old time.old) y
        (lent s.new slots.new time.new)) }
{
    if word == read_word(Reg::FrameNo) {
        return go_on(s, slots, time, driver, frame);
    }
    word
}

// The word of the answer that a transfer gets: mis_st is read.
fn mis_word() -> u64
    ensures { Encodes result (Step.Asks (Access.Read Reg.MisSt 0)) }
{
    0x201
}

// The interrupt's begin with its first two readings, frame_no and int_fg.
pub fn usbhs_interrupt(
    s: &mut State,
    slots: &mut [u8],
    time: &mut Time,
    driver: u32,
    frame: u32,
    flags: u32,
) -> u64
    ensures { AnswersInterrupt result driver frame flags
        (lent s.old slots.old time.old)
        (lent s.new slots.new time.new) }
{
    let n = readings::enter(s, slots, frame, flags);
    match n {
        Entered::Mis => mis_word(),
        Entered::Flags => usbhs_continue(s, slots, time, driver, flags),
        Entered::No => {
            let word = usbhs_begin_interrupt(s);
            bring(
                s,
                slots,
                time,
                driver,
                word,
                Reg::FrameNo,
                frame,
                Reg::IntFg,
                flags,
            )
        }
    }
}

// A continue with a transfer's three readings, mis_st, int_st and rx_len.
pub fn usbhs_continue_transfer(
    s: &mut State,
    slots: &mut [u8],
    time: &mut Time,
    driver: u32,
    mis: u32,
    st: u32,
    len: u32,
) -> u64
    ensures { AnswersTransfer result driver mis st len
        (lent s.old slots.old time.old)
        (lent s.new slots.new time.new) }
{
    let n = readings::pass(s, slots, mis, st, len);
    match n {
        Passed::Word(w) => w,
        Passed::No => {
            let word = go_on(s, slots, time, driver, mis);
            bring(
                s,
                slots,
                time,
                driver,
                word,
                Reg::IntSt,
                st,
                Reg::RxLen,
                len,
            )
        }
    }
}

// The interrupt's begin with five readings, frame_no, int_fg and a transfer's three.
pub fn usbhs_interrupt_transfer(
    s: &mut State,
    slots: &mut [u8],
    time: &mut Time,
    driver: u32,
    frame: u32,
    flags: u32,
    mis: u32,
    st: u32,
    len: u32,
) -> u64
    ensures { AnswersInterruptTransfer result driver frame flags mis st len
        (lent s.old slots.old time.old)
        (lent s.new slots.new time.new) }
{
    let n = readings::serve(s, slots, frame, flags, mis, st, len);
    match n {
        Served::Transfer(w) => w,
        Served::Flags(w) => {
            if w == read_word(Reg::MisSt) {
                return bring_mis(s, slots, time, driver, w, mis, st, len);
            }
            w
        }
        Served::No => {
            let word = usbhs_begin_interrupt(s);
            bring_all(s, slots, time, driver, word, frame, flags, mis, st, len)
        }
    }
}

// A continue after the write that clears the transfer's flag, and frame_no.
pub fn usbhs_continue_released(
    s: &mut State,
    slots: &mut [u8],
    time: &mut Time,
    driver: u32,
    frame: u32,
) -> u64
    ensures { AnswersReleased result driver frame
        (lent s.old slots.old time.old)
        (lent s.new slots.new time.new) }
{
    let n = readings::frames::released(s, slots, frame);
    match n {
        Passed::Word(w) => w,
        Passed::No => {
            let word = go_on(s, slots, time, driver, 0);
            bring_frame(s, slots, time, driver, word, frame)
        }
    }
}

// So many looks at mis_st that read `busy`, and one more that read `last`: as many continues and one.
pub fn usbhs_continue_looks(
    s: &mut State,
    slots: &mut [u8],
    time: &mut Time,
    driver: u32,
    looks: u32,
    busy: u32,
    last: u32,
) -> u64
    ensures { AnswersLooks result driver looks busy last
        (lent s.old slots.old time.old)
        (lent s.new slots.new time.new) }
{
    let mut left = looks - readings::looks::look(s, slots, looks, busy);
    while left > 0 {
        let word = go_on(s, slots, time, driver, busy);
        if word != read_word(Reg::MisSt) {
            return word;
        }
        left -= 1;
    }
    go_on(s, slots, time, driver, last)
}
