// Numbers in the state's bytes, low byte first: one at o + k, or five of a width in a row.
ghost use Rattle.std.specs.Prelude.{◌≡◌, ◌+◌, ◌*◌, ◌≤◌, [], ◌∷◌};
ghost use Rattle.bits.specs.Bytes.{gets, puts, field, digits, numbers, bytes, bytes5, words5, Each};

// The length of the driver's state.
pub const STATE_LEN: usize = 2999;

// The bytes that are the state.
pub type State = [u8; STATE_LEN];

#[derive(Clone, Copy)]
pub struct Bytes5(pub u8, pub u8, pub u8, pub u8, pub u8);

#[derive(Clone, Copy)]
pub struct Words5(pub u16, pub u16, pub u16, pub u16, pub u16);

fn glue16(lo: u8, hi: u8) -> u16
    ensures { result ≡ lo + hi * 256 }
{
    lo as u16 + hi as u16 * 256
}

fn glue32(lo: u16, hi: u16) -> u32
    ensures { result ≡ lo + hi * 65536 }
{
    lo as u32 + hi as u32 * 65536
}

// Reads a byte of the record at o, k bytes in.
pub fn get8(s: &State, o: usize, k: usize) -> u8
    requires { o + k + 1 ≤ 2999 }
    ensures { result ≡ field s.now o k 1 }
{
    s[o + (k + 0)]
}

// Reads a 16-bit number of the record at o, k bytes in, lowest byte first.
pub fn get16(s: &State, o: usize, k: usize) -> u16
    requires { o + k + 2 ≤ 2999 }
    ensures { result ≡ field s.now o k 2 }
{
    glue16(s[o + (k + 0)], s[o + (k + 1)])
}

// Reads a 32-bit number of the record at o, k bytes in, lowest byte first.
pub fn get32(s: &State, o: usize, k: usize) -> u32
    requires { o + k + 4 ≤ 2999 }
    ensures { result ≡ field s.now o k 4 }
{
    glue32(
        glue16(s[o + (k + 0)], s[o + (k + 1)]),
        glue16(s[o + (k + 2)], s[o + (k + 3)]),
    )
}

// Reads five bytes of the record at o, from k bytes in.
pub fn get8x5(s: &State, o: usize, k: usize) -> Bytes5
    requires { o + k + 5 ≤ 2999 }
    ensures { Each (result.0 ∷ result.1 ∷ result.2 ∷ result.3 ∷ result.4 ∷ []) (numbers bytes5 (gets s.now o k 5)) }
{
    Bytes5(
        s[o + (k + 0)],
        s[o + (k + 1)],
        s[o + (k + 2)],
        s[o + (k + 3)],
        s[o + (k + 4)],
    )
}

// Reads five 16-bit numbers of the record at o, from k bytes in.
pub fn get16x5(s: &State, o: usize, k: usize) -> Words5
    requires { o + k + 10 ≤ 2999 }
    ensures { Each (result.0 ∷ result.1 ∷ result.2 ∷ result.3 ∷ result.4 ∷ []) (numbers words5 (gets s.now o k 10)) }
{
    Words5(
        glue16(s[o + (k + 0)], s[o + (k + 1)]),
        glue16(s[o + (k + 2)], s[o + (k + 3)]),
        glue16(s[o + (k + 4)], s[o + (k + 5)]),
        glue16(s[o + (k + 6)], s[o + (k + 7)]),
        glue16(s[o + (k + 8)], s[o + (k + 9)]),
    )
}

// Stores a byte into the record at o, k bytes in.
pub fn put8(s: &mut State, o: usize, k: usize, v: u8)
    requires { o + k + 1 ≤ 2999 }
    ensures { s.new ≡ puts s.old o k (digits 1 v) }
{
    s[o + (k + 0)] = v;
}

// Stores a 16-bit number into the record at o, k bytes in, lowest byte first.
pub fn put16(s: &mut State, o: usize, k: usize, v: u16)
    requires { o + k + 2 ≤ 2999 }
    ensures { s.new ≡ puts s.old o k (digits 2 v) }
{
    s[o + (k + 0)] = (v % 256) as u8;
    s[o + (k + 1)] = (v / 256) as u8;
}

// Stores a 32-bit number into the record at o, k bytes in, lowest byte first.
pub fn put32(s: &mut State, o: usize, k: usize, v: u32)
    requires { o + k + 4 ≤ 2999 }
    ensures { s.new ≡ puts s.old o k (digits 4 v) }
{
    s[o + (k + 0)] = (v % 256) as u8;
    s[o + (k + 1)] = (v / 256 % 256) as u8;
    s[o + (k + 2)] = (v / 256 / 256 % 256) as u8;
    s[o + (k + 3)] = (v / 256 / 256 / 256) as u8;
}

// Stores five bytes into the record at o, from k bytes in.
pub fn put8x5(s: &mut State, o: usize, k: usize, a: u8, b: u8, c: u8, d: u8, e: u8)
    requires { o + k + 5 ≤ 2999 }
    ensures { s.new ≡ puts s.old o k (bytes bytes5 (a ∷ b ∷ c ∷ d ∷ e ∷ [])) }
{
    s[o + (k + 0)] = a;
    s[o + (k + 1)] = b;
    s[o + (k + 2)] = c;
    s[o + (k + 3)] = d;
    s[o + (k + 4)] = e;
}

// Stores five 16-bit numbers into the record at o, from k bytes in.
pub fn put16x5(s: &mut State, o: usize, k: usize, a: u16, b: u16, c: u16, d: u16, e: u16)
    requires { o + k + 10 ≤ 2999 }
    ensures { s.new ≡ puts s.old o k (bytes words5 (a ∷ b ∷ c ∷ d ∷ e ∷ [])) }
{
    s[o + (k + 0)] = (a % 256) as u8;
    s[o + (k + 1)] = (a / 256) as u8;
    s[o + (k + 2)] = (b % 256) as u8;
    s[o + (k + 3)] = (b / 256) as u8;
    s[o + (k + 4)] = (c % 256) as u8;
    s[o + (k + 5)] = (c / 256) as u8;
    s[o + (k + 6)] = (d % 256) as u8;
    s[o + (k + 7)] = (d / 256) as u8;
    s[o + (k + 8)] = (e % 256) as u8;
    s[o + (k + 9)] = (e / 256) as u8;
}
