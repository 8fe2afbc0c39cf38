// A call's answer as one word of 64 bits.
ghost use Rattle.std.specs.Prelude.{◌≡◌};
ghost use Rattle.regs.specs.declared.Access.TheVariants as Access;
ghost use Rattle.answer.specs.declared.Step.TheVariants as Step;
ghost use Rattle.answer.specs.Parts.{EndFits};
ghost use Rattle.answer.specs.Word.{read_word, write_word, IsAccessWord, end_word, done_word, shown_word, Encodes};

use crate::Step;
use regs::registers::number;
use regs::{Access, Reg};

// The words of two refusals: row 1, the slots' length; row 16, the reading's width.
pub const ROW_1: u64 = 0x100;

pub const ROW_16: u64 = 0x1000;

fn read_word(register: u8, endpoint: u8) -> u64
    ensures { result ≡ read_word register endpoint }
{
    1 + register as u64 * 0x100 + endpoint as u64 * 0x10000
}

fn write_word(register: u8, endpoint: u8, value: u32) -> u64
    ensures { result ≡ write_word register endpoint value }
{
    2 + register as u64 * 0x100 + endpoint as u64 * 0x10000 + value as u64 * 0x1_0000_0000
}

fn access_word(q: Access) -> u64
    ensures { IsAccessWord result q }
{
    match q {
        Access::Read(r, e) => read_word(number(r), e),
        Access::Write(r, e, x) => write_word(number(r), e, x),
        Access::Receive(e, x) => write_word(15, e, x),
        Access::Transmit(e, x) => write_word(16, e, x),
        Access::Ep0Dma(x) => write_word(12, 0, x),
        Access::Wait(n) => 3 + n as u64 * 0x100,
        Access::Callback => 4,
    }
}

fn end_word(n: u16, k: u8) -> u64
    ensures value { result ≡ end_word n k }
    ensures end_fits { EndFits n k }
{
    5 + n as u64 * 0x100 + k as u64 * 0x100_0000
}

// The words of an interrupt's answers, each where it is made: a read or a write of a register of the whole block, any
// access, the end.
pub fn asks_read(register: Reg) -> u64
    ensures { Encodes result (Step.Asks (Access.Read register 0)) }
{
    read_word(number(register), 0)
}

// The word that asks the caller for a write to a register without an endpoint.
pub fn asks_write(register: Reg, value: u32) -> u64
    ensures { Encodes result (Step.Asks (Access.Write register 0 value)) }
{
    write_word(number(register), 0, value)
}

// The word that asks the caller for an access.
pub fn asks(q: Access) -> u64
    ensures { Encodes result (Step.Asks q) }
{
    access_word(q)
}

// The word of an operation's end: its result, and how many tasks it wakes.
pub fn ended(n: u16, k: u8) -> u64
    ensures { Encodes result (Step.Ends n k) }
{
    end_word(n, k)
}

fn done_word(n: u16) -> u64
    ensures { result ≡ done_word n }
{
    7 + n as u64 * 0x100
}

fn shown_word(at: u32, n: u16) -> u64
    ensures { result ≡ shown_word at n }
{
    8 + n as u64 * 0x100 + at as u64 * 0x1_0000_0000
}

// The word of a call's answer. A setup packet's bytes lie in the caller's packet: 8 are brought. The stamp of a packet
// that is shown lies in the caller's room for it.
pub fn word_of(step: Step) -> u64
    ensures { Encodes result step }
{
    match step {
        Step::Refused(n) => n as u64 * 0x100,
        Step::Asks(q) => access_word(q),
        Step::Ends(n, k) => end_word(n, k),
        Step::NotYet => 6,
        Step::Done(n) => done_word(n),
        Step::Setup(_low, _high) => done_word(8),
        Step::Shown(at, n, _stamp) => shown_word(at, n),
    }
}

// An access of a continue: nearly all are reads and writes. Its one caller has it in line.
fn continue_access_word(q: Access) -> u64
    ensures { IsAccessWord result q }
{
    match q {
        Access::Read(r, e) => read_word(number(r), e),
        Access::Write(r, e, x) => write_word(number(r), e, x),
        _ => access_word(q),
    }
}

// The same, of a continue: nearly all of its answers are accesses and ends. Its one caller has it in line.
pub fn continue_word(step: Step) -> u64
    ensures { Encodes result step }
{
    match step {
        Step::Asks(q) => continue_access_word(q),
        Step::Ends(n, k) => end_word(n, k),
        _ => word_of(step),
    }
}
