ghost use Rattle.std.specs.Prelude.{◌≡◌};
ghost use Rattle.regs.specs.ControlWord.{response, toggle, automatic, word_of, ack, nak, stall, flip, nakflip};
ghost use Rattle.regs.specs.ControlWord.{status, is_data1, is_stalled};

// Responses; NYET is also the source's TX_RES_ISO.
pub const ACK: u8 = 0;

pub const NYET: u8 = 1;

pub const NAK: u8 = 2;

pub const STALL: u8 = 3;

// Toggles.
pub const DATA0: u8 = 0;

pub const DATA1: u8 = 1;

// The fields of a word.
pub fn response(word: u8) -> u8
    ensures { result ≡ response word }
{
    word & 3
}

// The toggle field of a control word.
pub fn toggle(word: u8) -> u8
    ensures { result ≡ toggle word }
{
    word >> 2 & 3
}

// Whether a control word has the automatic toggle on.
pub fn automatic(word: u8) -> bool
    ensures { result ≡ automatic word }
{
    bits::byte_has(word, 4)
}

// A word of its fields, all other bits 0.
pub fn word_of(response: u8, toggle: u8, automatic: bool) -> u8
    ensures { result ≡ word_of response toggle automatic }
{
    let fields = (toggle & 3) << 2 | response & 3;
    if automatic {
        return fields | 0x10;
    }
    fields
}

// The word with another response.
pub fn ack(word: u8) -> u8
    ensures { result ≡ ack word }
{
    word & 0xFC
}

// A control word with its response set to NAK.
pub fn nak(word: u8) -> u8
    ensures { result ≡ nak word }
{
    word & 0xFC | NAK
}

// A control word with its response set to STALL.
pub fn stall(word: u8) -> u8
    ensures { result ≡ stall word }
{
    word & 0xFC | STALL
}

// The word with the other toggle; values 2 and 3 become DATA0.
pub fn flip(word: u8) -> u8
    ensures { result ≡ flip word }
{
    if toggle(word) == DATA0 {
        return word & 0xF3 | DATA1 << 2;
    }
    word & 0xF3
}

// A control word with NAK and the other toggle.
pub fn nakflip(word: u8) -> u8
    ensures { result ≡ nakflip word }
{
    flip(nak(word))
}

// The status stage's word: DATA1, ACK.
pub fn status(word: u8) -> u8
    ensures { result ≡ status word }
{
    word & 0xF0 | DATA1 << 2
}

// Whether a control word's toggle is DATA1.
pub fn is_data1(word: u8) -> bool
    ensures { result ≡ is_data1 word }
{
    toggle(word) == DATA1
}

// Whether a control word's response is STALL.
pub fn is_stalled(word: u8) -> bool
    ensures { result ≡ is_stalled word }
{
    response(word) == STALL
}
