// The answer that a word says (crate `call_answer_word` turned round), for callers in Rattle. Every function is total:
// any word is safe.
ghost use Rattle.std.specs.Prelude.{◌≡◌, ◌/◌, ◌%◌, ◌^◌};
ghost use Rattle.answer.specs.Parts.{reg_of, write_of, step_of};
ghost use Rattle.answer.specs.Asked.{access_of};

use crate::Step;
use regs::{Access, Reg};

fn register_of(n: u8) -> Reg
    ensures { result ≡ reg_of n }
{
    match n {
        0 => Reg::IntFg,
        1 => Reg::IntSt,
        2 => Reg::MisSt,
        3 => Reg::RxLen,
        4 => Reg::FrameNo,
        5 => Reg::Ctrl,
        6 => Reg::IntEn,
        7 => Reg::DevAd,
        8 => Reg::HostCtrl,
        9 => Reg::EpConfig,
        10 => Reg::EpType,
        11 => Reg::EpBufMod,
        13 => Reg::EpMaxLen,
        14 => Reg::EpTLen,
        17 => Reg::EpRxCtrl,
        _ => Reg::EpTxCtrl,
    }
}

fn write_of(n: u8, e: u8, x: u32) -> Access
    ensures { result ≡ write_of n e x }
{
    match n {
        12 => Access::Ep0Dma(x),
        15 => Access::Receive(e, x),
        16 => Access::Transmit(e, x),
        _ => Access::Write(register_of(n), e, x),
    }
}

fn kind_of(w: u64) -> u8
    ensures { result ≡ w % 2 ^ 4 }
{
    (w % 16) as u8
}

fn low_byte(n: u64) -> u8
    ensures { result ≡ n % 2 ^ 8 }
{
    (n % 256) as u8
}

fn low_half(n: u64) -> u16
    ensures { result ≡ n % 2 ^ 16 }
{
    (n % 65536) as u16
}

fn high_word(w: u64) -> u32
    ensures { result ≡ w / 2 ^ 32 }
{
    (w / 0x1_0000_0000) as u32
}

// The access that a word of kind 1 to 4 hands out.
fn access_of(kind: u8, w: u64) -> Access
    ensures { result ≡ access_of kind w }
{
    match kind {
        1 => Access::Read(register_of(low_byte(w / 256)), low_byte(w / 65536)),
        2 => write_of(low_byte(w / 256), low_byte(w / 65536), high_word(w)),
        3 => Access::Wait(low_byte(w / 256)),
        _ => Access::Callback,
    }
}

// Reads an answer's word back as the answer.
pub fn step_of(w: u64) -> Step
    ensures { result ≡ step_of w }
{
    let kind = kind_of(w);
    match kind {
        0 => Step::Refused(low_byte(w / 256)),
        1 | 2 | 3 | 4 => Step::Asks(access_of(kind, w)),
        5 => Step::Ends(low_half(w / 256), low_byte(w / 16777216)),
        6 => Step::NotYet,
        7 => Step::Done(low_half(w / 256)),
        _ => Step::Shown(high_word(w), low_half(w / 256), 0),
    }
}
