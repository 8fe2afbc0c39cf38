// A recorded list as bytes (oracle/FORMAT.md, "The same as bytes"): 40 bytes for an entry, then what they count.
// Any bytes are safe: past the list's end all is 0.

pub const LIST_LEN: usize = 65536;

// 18 buffers of 64 bytes.
pub const SLOTS_LEN: usize = 1152;

// What the list has of an entry, but for its bytes.
#[derive(Clone, Copy)]
pub struct Entry {
    pub code: u32,
    pub times: u32,
    pub parts: u32,
    // the kind of its answer, or 15 where it is not compared
    pub answer: u64,
    // where the bytes that it brings begin, how many they are, and where its changed parts begin
    pub data: u32,
    pub data_len: u32,
    pub changes: u32,
}

fn byte(list: &[u8; LIST_LEN], at: u32, k: u8) -> u8 {
    list.get(at as usize + k as usize).copied().unwrap_or(0)
}

// 16 and 32 bits of the entry at this place, from its byte k on, lowest first.
fn short(list: &[u8; LIST_LEN], at: u32, k: u8) -> u16 {
    u16::from_le_bytes([byte(list, at, k), byte(list, at, k.saturating_add(1))])
}

pub fn number(list: &[u8; LIST_LEN], at: u32, k: u8) -> u32 {
    u32::from(short(list, at, k)) | u32::from(short(list, at, k.saturating_add(2))) << 16
}

pub fn entry_at(list: &[u8; LIST_LEN], at: u32) -> Entry {
    let data = at.wrapping_add(40);
    let data_len = number(list, at, 32);
    let received = number(list, at, 36);
    let changes = data.wrapping_add(data_len).wrapping_add(received);
    Entry {
        code: u32::from(byte(list, at, 0)),
        times: u32::from(short(list, at, 1)),
        parts: u32::from(byte(list, at, 3)),
        answer: u64::from(number(list, at, 24)) | u64::from(number(list, at, 28)) << 32,
        data,
        data_len,
        changes,
    }
}

// Copies so many bytes of the list to a place, where both have them.
pub fn copy(list: &[u8], from: u32, len: u32, to: &mut [u8], at: u32) {
    let a = from as usize;
    let e = a + len as usize;
    if e <= list.len() {
        ring::marks::copy_in(to, at, &list[a..e]);
    }
}

pub fn store(list: &[u8; LIST_LEN], from: u32, len: u32, slots: &mut [u8; SLOTS_LEN], at: u32) {
    copy(list, from, len, slots, at);
}

// Where the entry behind this one begins; the changed parts go into the slots.
pub fn changed(list: &[u8; LIST_LEN], e: Entry, slots: &mut [u8; SLOTS_LEN]) -> u32 {
    let mut at = e.changes;
    for _ in 0..e.parts {
        let len = number(list, at, 4);
        let from = at.wrapping_add(8);
        store(list, from, len, slots, number(list, at, 0));
        at = from.wrapping_add(len);
    }
    at
}
