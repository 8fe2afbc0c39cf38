// The data CRC of USB 2.0, 8.3.5. The remainder is kept with its high-order bit as bit 0, so that bits come and go in
// the order of the bus.
// Four bytes go in at a step. There is no table: the generator is (x + 1)(x^15 + x + 1), so a word's remainder is a few
// of its bits moved, and its parity.
ghost use Rattle.std.specs.Prelude.{◌≡◌, ◌+◌, ◌*◌, ◌/◌, ◌<◌, length, drop};
ghost use Rattle.card.specs.Crc.{data_crc};
ghost use Rattle.card.specs.Register.{turned, turns, over};
ghost use Rattle.card.specs.Bytewise.{word_of};
ghost use Rattle.card.specs.Fold.{folded, odd, remainder_of, Even};

// One data bit, the lowest of x.
fn turn(remainder: u16, x: u8) -> u16
    ensures { result ≡ turned remainder x }
{
    let half = remainder / 2;
    if remainder % 2 == x as u16 % 2 {
        return half;
    }
    half ^ 0xA001
}

fn turn_byte(remainder: u16, byte: u8) -> u16
    ensures { result ≡ turns 8 remainder byte }
{
    let mut kept = remainder;
    let mut x = byte;
    for _bit in 0..8u8 {
        kept = turn(kept, x);
        x /= 2;
    }
    kept
}

// Four bytes as one word, the first lowest.
fn word(a: u8, b: u8, c: u8, d: u8) -> u32
    ensures value { result ≡ word_of a b c d }
    ensures a_bound { (a < 256) × (b < 256) × (c < 256) × (d < 256) }
{
    a as u32 + b as u32 * 0x100 + c as u32 * 0x1_0000 + d as u32 * 0x100_0000
}

// What 32 zero bits make of a word, but for its parity.
fn fold(x: u32) -> u32
    ensures { result ≡ folded x }
{
    let high = x / 0x4_0000;
    let middle = x / 16 % 0x4000;
    let low = x % 16;
    let pair = (low ^ low * 2) % 32;
    ((high ^ high * 2) ^ (middle ^ middle * 4)) ^ (pair ^ pair * 4) % 128 * 1024
}

// Are the bits of x odd in number? 1 or 0.
fn parity(x: u32) -> u32
    ensures { result ≡ odd x }
{
    let a = x ^ x / 0x1_0000;
    let b = a ^ a / 0x100;
    let c = b ^ b / 16;
    let d = c ^ c / 4;
    (d ^ d / 2) % 2
}

// The remainder that a sum of folded words stands for, and the words' parity.
fn settle(sum: u32, words: u32) -> u16
    ensures { result ≡ remainder_of sum words }
{
    let low = sum % 0x1_0000 ^ sum / 0x1_0000 % 2 * 0x4003;
    ((low ^ parity(words) * 0xC001) % 0x1_0000) as u16
}

// A sum of folded words, and the words' own exclusive or.
#[derive(Clone, Copy)]
struct Sums {
    sum: u32,
    words: u32,
}

// The word at i.
fn with_word(s: Sums, bytes: &[u8], i: usize) -> Sums
    requires { (i + 3 < length bytes.now) × Even s.sum }
    ensures even { Even result.sum }
    ensures bytes_value { over (remainder_of result.sum result.words) (drop (i + 4) bytes.now)
        ≡ over (remainder_of s.sum s.words) (drop i bytes.now) }
{
    let next = word(bytes[i], bytes[i + 1], bytes[i + 2], bytes[i + 3]);
    Sums {
        sum: fold(s.sum ^ next),
        words: s.words ^ next,
    }
}

// What the whole words of these bytes make of the remainder, from the seed on; four words at a turn while there are as
// many: for speed.
fn whole_words(bytes: &[u8]) -> u16
    ensures { over result (drop (length bytes.now / 4 * 4) bytes.now)
        ≡ over 65535 bytes.now }
{
    let mut s = Sums {
        sum: 0xFFFF,
        words: 0,
    };
    for four in 0..bytes.len() / 16 {
        let i = four * 16;
        s = with_word(s, bytes, i);
        s = with_word(s, bytes, i + 4);
        s = with_word(s, bytes, i + 8);
        s = with_word(s, bytes, i + 12);
    }
    for one in bytes.len() / 16 * 4..bytes.len() / 4 {
        s = with_word(s, bytes, one * 4);
    }
    settle(s.sum, s.words)
}

// The CRC of these bytes, the first bit sent being bit 0.
pub fn data_crc(bytes: &[u8]) -> u16
    ensures { result ≡ data_crc bytes.now }
{
    let mut kept = whole_words(bytes);
    // By index: over the slice of these bytes the compiler writes a turn for each of three, 480 bytes more.
    for i in bytes.len() / 4 * 4..bytes.len() {
        kept = turn_byte(kept, bytes[i]);
    }
    !kept
}
