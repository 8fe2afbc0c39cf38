// Marks in the slots of isochronous OUT endpoints, and copies into and out of slots (mod.rs 511-556).
// The public functions take the whole lent buffer and a slot's offset, any number; the others the part of the buffer
// from the slot's start. What would reach past the buffer's end touches nothing.
ghost use Rattle.std.specs.Prelude.{◌≡◌, ◌+◌, ◌*◌, ◌≤◌, [], ◌∷◌, length};
ghost use Rattle.std.proofs.lemmas.List.Edits.{sets};
ghost use Rattle.ring.specs.Marks.{is_mark, mark_byte, marked, marked_run, armed_words, found, is_marked, armed, marked_len};
ghost use Rattle.ring.specs.Copies.{over, four, copied_run, copied, copied_out};

// Is word i of the part the mark, 0x5A3CA5C3 in bytes lowest first?
fn is_mark(part: &[u8], i: usize) -> bool
    requires { i * 4 + 4 ≤ length part.now }
    ensures { result ≡ is_mark part.now i }
{
    let a = i * 4;
    if part[a] != 0xC3 {
        return false;
    }
    if part[a + 1] != 0xA5 {
        return false;
    }
    if part[a + 2] != 0x3C {
        return false;
    }
    part[a + 3] == 0x5A
}

// The mark's byte at place k.
fn mark_byte(k: usize) -> u8
    ensures { result ≡ mark_byte k }
{
    match k % 4 {
        0 => 0xC3,
        1 => 0xA5,
        2 => 0x3C,
        _ => 0x5A,
    }
}

// How many of the first n words are left without the marked ones at their end.
fn unmarked_words(part: &[u8], n: u32) -> u32
    requires { n * 4 ≤ length part.now }
    ensures { (result ≤ n) × (found (result * 4) part.now ≡ found (n * 4) part.now) }
{
    let mut i = n;
    while 0 < i {
        let is_empty = is_mark(part, i as usize - 1);
        if !is_empty {
            return i;
        }
        i -= 1;
    }
    0
}

// The first n bytes, where they are whole words, without the marked words at their end: 11 instructions a word on RV32.
fn skip_words(part: &[u8], n: u16) -> u16
    requires { n ≤ length part.now }
    ensures { (result ≤ n) × (found result part.now ≡ found n part.now) }
{
    if n % 4 == 0 {
        return (unmarked_words(part, (n / 4) as u32) * 4) as u16;
    }
    n
}

// The length of the packet in the part: down from max, up to the last byte that differs from the mark's.
fn len_part(part: &[u8], max: u16) -> u16
    requires { max ≤ length part.now }
    ensures { result ≡ found max part.now }
{
    let mut n = max;
    while 0 < n {
        let k = n as usize - 1;
        if part[k] != mark_byte(k) {
            return n;
        }
        n = skip_words(part, n - 1);
    }
    0
}

// Marks word i of the part.
fn mark_word(part: &mut [u8], i: usize)
    requires { i * 4 + 4 ≤ length part.old }
    ensures { part.new ≡ marked part.old i }
{
    let a = i * 4;
    part[a] = 0xC3;
    part[a + 1] = 0xA5;
    part[a + 2] = 0x3C;
    part[a + 3] = 0x5A;
}

// Marks four words from word i on.
fn mark_four(part: &mut [u8], i: usize)
    requires { i * 4 + 16 ≤ length part.old }
    ensures { part.new ≡ marked_run part.old i 4 }
{
    mark_word(part, i);
    mark_word(part, i + 1);
    mark_word(part, i + 2);
    mark_word(part, i + 3);
}

// Marks the first n words: those that do not make four, then the others four at a time. A counter of 16 bits is one
// register on RV32.
fn mark_words(part: &mut [u8], n: u16)
    requires { n * 4 ≤ length part.old }
    ensures { part.new ≡ marked_run part.old 0 n }
{
    let mut i = 0;
    while i < n % 4 {
        mark_word(part, i as usize);
        i += 1;
    }
    while i < n {
        mark_four(part, i as usize);
        i += 4;
    }
}

// Marks n words of a whole buffer from word w on, as mark_words does. Where the buffer lies on a word boundary each is
// one store: firmware/clang says so of the buffer of this function, which stands alone.
fn mark_aligned(buf: &mut [u8], w: u32, n: u16)
    requires { w * 4 + n * 4 ≤ length buf.old }
    ensures { buf.new ≡ marked_run buf.old w n }
{
    let mut i = 0;
    while i < n % 4 {
        mark_word(buf, w as usize + i as usize);
        i += 1;
    }
    while i < n {
        mark_four(buf, w as usize + i as usize);
        i += 4;
    }
}

// How many words arming marks.
fn armed_words(max: u16) -> u16
    ensures { result ≡ armed_words max }
{
    let n = ((max as usize + 3) / 4) as u16;
    if n < 1 { 1 } else { n }
}

#[derive(Clone, Copy)]
struct Bytes4(u8, u8, u8, u8);

// The four bytes from place i on.
fn get4(s: &[u8], i: usize) -> Bytes4
    requires { i + 4 ≤ length s.now }
    ensures { result.0 ∷ result.1 ∷ result.2 ∷ result.3 ∷ [] ≡ four s.now i }
{
    Bytes4(s[i], s[i + 1], s[i + 2], s[i + 3])
}

fn put4(s: &mut [u8], i: usize, b: Bytes4)
    requires { i + 4 ≤ length s.old }
    ensures { s.new ≡ sets s.old i (b.0 ∷ b.1 ∷ b.2 ∷ b.3 ∷ []) }
{
    s[i] = b.0;
    s[i + 1] = b.1;
    s[i + 2] = b.2;
    s[i + 3] = b.3;
}

// Copies sixteen bytes from place i on, all read before the first is stored: by two instructions a byte on RV32, by two
// in all on x86-64.
fn copy16(part: &mut [u8], packet: &[u8], i: usize)
    requires i_in_bounds { i + 16 ≤ length packet.now }
    requires i_in_bounds_2 { i + 16 ≤ length part.old }
    ensures { part.new ≡ copied_run packet.now part.old i 16 }
{
    let j = i + 4;
    let k = i + 8;
    let l = i + 12;
    let a = get4(packet, i);
    let b = get4(packet, j);
    let c = get4(packet, k);
    let d = get4(packet, l);
    put4(part, i, a);
    put4(part, j, b);
    put4(part, k, c);
    put4(part, l, d);
}

// Copies the packet's first n bytes, one by one.
fn copy_few(part: &mut [u8], packet: &[u8], n: u8)
    requires n_in_bounds { n ≤ length packet.now }
    requires n_in_bounds_2 { n ≤ length part.old }
    ensures { part.new ≡ copied_run packet.now part.old 0 n }
{
    let mut i = 0;
    while i < n {
        part[i as usize] = packet[i as usize];
        i += 1;
    }
}

// Copies the packet to the part's start: the bytes that do not make 32, then the others 32 at a time.
fn copy(part: &mut [u8], packet: &[u8])
    requires { length packet.now ≤ length part.old }
    ensures { part.new ≡ over packet.now part.old }
{
    let n = packet.len();
    copy_few(part, packet, (n % 32) as u8);
    let mut i = n % 32;
    while i < n {
        copy16(part, packet, i);
        copy16(part, packet, i + 16);
        i += 32;
    }
}

// Is the slot's first word the mark: has no packet arrived in it?
pub fn is_marked(buf: &[u8], at: u32) -> bool
    ensures { result ≡ is_marked buf.now at }
{
    let a = at as usize;
    if buf.len() < a + 4 {
        return true;
    }
    is_mark(&buf[a..], 0)
}

// The length of the packet in the slot, by the marks.
pub fn marked_len(buf: &[u8], at: u32, max: u16) -> u16
    ensures { result ≡ marked_len buf.now at max }
{
    let a = at as usize;
    let n = max as usize;
    if buf.len() < a + n {
        return 0;
    }
    len_part(&buf[a..], max)
}

// Marks the slot empty: word 0 and every word up to max, rounded up to whole words.
pub fn iso_out_arm(buf: &mut [u8], at: u32, max: u16)
    ensures { buf.new ≡ armed buf.old at max }
{
    let a = at as usize;
    let n = armed_words(max);
    if buf.len() < a + n as usize * 4 {
        return;
    }
    if at % 4 == 0 {
        mark_aligned(buf, at / 4, n);
        return;
    }
    mark_words(&mut buf[a..], n);
}

// Copies the packet into the slot.
pub fn copy_in(buf: &mut [u8], at: u32, packet: &[u8])
    ensures { buf.new ≡ copied buf.old at packet.now }
{
    let a = at as usize;
    if buf.len() < a {
        return;
    }
    if buf.len() - a < packet.len() {
        return;
    }
    copy(&mut buf[a..], packet);
}

// Copies the slot's first n bytes to the front of `out`.
pub fn copy_out(buf: &[u8], at: u32, out: &mut [u8], n: u16)
    ensures { out.new ≡ copied_out buf.now at out.old n }
{
    let a = at as usize;
    let k = n as usize;
    let e = a + k;
    if buf.len() < e {
        return;
    }
    if out.len() < k {
        return;
    }
    copy(out, &buf[a..e]);
}
