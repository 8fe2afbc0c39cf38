// The rings of isochronous packets, on an endpoint's record by value. Head and tail are 8-bit counters that run free.
// Every function is total: any number is safe.
#![tactic(auto)]

use state::EpState;

pub mod marks; // marks.rt: marks, length by marks and copies in the slots of the lent buffer

ghost use Rattle.std.specs.Prelude.{◌≡◌, ◌+◌, ◌-◌, ◌*◌, ◌%◌, ◌^◌, ◌<◌, ◌≤◌};
ghost use Rattle.ring.specs.Slot.{slot_of, slot_addr, has_waiting, joined_of};
ghost use Rattle.ring.specs.Out.{has_room_out, capped_at, overrun_of, arrived_of, armed_at, opened_of, closed_of};
ghost use Rattle.ring.specs.In.{has_room_in, completed_of, loaded_of, unloaded_of, next_load};

// The slot of counter i.
pub fn slot_index(s: EpState, i: u8) -> u8
    ensures { result ≡ slot_of s i }
{
    let n = s.slots;
    if n == 0 {
        return 0;
    }
    i % n
}

// Where the slot of counter i lies (mod.rs 181).
pub fn slot_addr(s: EpState, i: u8) -> u32
    ensures { result ≡ slot_addr s i }
{
    let offset = slot_index(s, i) as u32 * s.stride as u32;
    std::num::wrapping_add_u32(s.base, offset)
}

// Whether a packet waits in the ring.
pub fn has_waiting(s: EpState) -> bool
    ensures { result ≡ has_waiting s }
{
    0 < s.count()
}

// The packet in the head's slot joins those that wait: an admission (mod.rs 501), a queue (mod.rs 393).
pub fn joined(mut s: EpState) -> EpState
    ensures { result ≡ joined_of s }
{
    s.head = std::num::wrapping_add_u8(s.head, 1);
    s
}

// OUT: one slot of the ring is always armed, so all but one hold packets (mod.rs 498).
pub fn has_room_out(s: EpState) -> bool
    ensures { result ≡ has_room_out s }
{
    let n = s.slots;
    if n == 0 {
        return false;
    }
    s.count() < n - 1
}

// A received length, capped at the maximum.
pub fn capped(s: EpState, len: u16) -> u16
    ensures { result ≡ capped_at s len }
{
    if len < s.max_len { len } else { s.max_len }
}

// The arrival is dropped and counted (mod.rs 505).
pub fn overrun(mut s: EpState) -> EpState
    ensures { result ≡ overrun_of s }
{
    s.overruns = std::num::wrapping_add_u32(s.overruns, 1);
    s
}

// An arrival in the head's slot is admitted or turned away (mod.rs 498-507).
pub fn arrived(s: EpState) -> EpState
    ensures { result ≡ arrived_of s }
{
    if has_room_out(s) {
        return joined(s);
    }
    overrun(s)
}

// The slot at `addr` is armed (mod.rs 554).
pub fn armed(mut s: EpState, addr: u32) -> EpState
    ensures { result ≡ armed_at s addr }
{
    s.armed_slot = addr;
    s
}

// The record with its oldest packet open.
pub fn opened(mut s: EpState) -> EpState
    ensures { result ≡ opened_of s }
{
    s.open = 1;
    s
}

// A close, and a read's poll that takes the packet: the oldest is read and none is open (mod.rs 269).
pub fn closed(mut s: EpState) -> EpState
    ensures { result ≡ closed_of s }
{
    s.tail = std::num::wrapping_add_u8(s.tail, 1);
    s.open = 0;
    s
}

// IN: every slot may hold a packet (mod.rs 385).
pub fn has_room_in(s: EpState) -> bool
    ensures { result ≡ has_room_in s }
{
    s.count() < s.slots
}

// The tail passes the packet that was loaded (mod.rs 406).
pub fn completed(mut s: EpState) -> EpState
    ensures { result ≡ completed_of s }
{
    if s.loaded == 0 {
        return s;
    }
    s.tail = std::num::wrapping_add_u8(s.tail, 1);
    s
}

// The address to load next (mod.rs 595).
#[derive(Clone, Copy)]
pub enum Next {
    At(u32),
    Nothing,
}

// Which packet of an IN ring is to be loaded next, if any.
pub fn next_load(s: EpState) -> Next
    ensures { result ≡ next_load s }
{
    if has_waiting(s) {
        return Next::At(slot_addr(s, s.tail));
    }
    Next::Nothing
}

// The record with its oldest packet marked as being sent.
pub fn loaded(mut s: EpState) -> EpState
    ensures { result ≡ loaded_of s }
{
    s.loaded = 1;
    s
}

// The record with no packet marked as being sent.
pub fn unloaded(mut s: EpState) -> EpState
    ensures { result ≡ unloaded_of s }
{
    s.loaded = 0;
    s
}
