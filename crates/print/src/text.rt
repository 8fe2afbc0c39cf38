// Text, numbers, and lists in words: each item behind a comma, and "none" of no item.
pub use crate::words::Endpoints;
use std::{fmt, io};

const COMMA: u8 = 0x2C;

// The most digits that `hex` fills up with zeros.
const WIDEST: usize = 16;

// The names of a word's bits that are set: `names` has them from bit 0 on.
#[derive(Clone, Copy)]
pub struct Named<'a> {
    pub word: u32,
    pub names: &'a [&'a str],
}

impl<'a> fmt::Display for Named<'a> {
    fn fmt<W: fmt::Write>(&self, f: &mut fmt::Formatter<W>) -> fmt::Result {
        let mut comma = "";
        for (bit, name) in (0..32).zip(self.names.iter()) {
            if bits::is_set(self.word, bit) {
                write!(f, "{comma}{name}")?;
                comma = ", ";
            }
        }
        f.write_str(if comma.is_empty() { "none" } else { "" })
    }
}

// Bytes, which may be no text, go out as they are, so what follows writes piece by piece.
pub fn print(rt: &impl Print, text: &[u8]) -> io::Result<()> {
    rt.write_all(text)
}

pub fn number(rt: &impl Print, n: u32) -> io::Result<()> {
    print!(rt; "{n}")
}

pub fn hex(rt: &impl Print, n: u32, digits: usize) -> io::Result<()> {
    let width = digits.min(WIDEST);
    print!(rt; "0x{n:0width$x}")
}

// An item of a list, where the word has its bit. `some`: the list has one already.
pub fn item(rt: &impl Print, word: u32, bit: u8, name: &[u8], some: bool) -> io::Result<bool> {
    if bits::is_set(word, bit) {
        if some {
            print(rt, b", ")?;
        }
        print(rt, name)?;
        return Ok(true);
    }
    Ok(some)
}

// The same for endpoints: those of the mask, each with its direction.
pub fn endpoints(rt: &impl Print, mask: u16, direction: &[u8], some: bool) -> io::Result<bool> {
    let mut any = some;
    for e in 0..16u8 {
        if bits::mask_has(mask, e) {
            if any {
                print(rt, b", ")?;
            }
            print(rt, direction)?;
            number(rt, e as u32)?;
            any = true;
        }
    }
    Ok(any)
}

// A list that has nothing.
pub fn none(rt: &impl Print, some: bool) -> io::Result<()> {
    if some { Ok(()) } else { print(rt, b"none") }
}

// The names of a word's bits that are set, or none: `names` has them from bit 0 on, each with a comma behind it.
pub fn items(rt: &impl Print, word: u32, names: &[u8]) -> io::Result<()> {
    let mut some = false;
    let mut bit: u8 = 0;
    let mut from = 0;
    for i in 0..names.len() {
        if names[i] == COMMA {
            some = item(rt, word, bit, &names[from..i], some)?;
            bit = (bit + 1) % 32;
            from = i + 1;
        }
    }
    none(rt, some)
}
