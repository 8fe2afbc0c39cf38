// An isochronous OUT's oldest packet opened and closed in place (mod.rs 253-271). No access is handed out; rows 1 and 3
// are the caller's. Every function is total: any number is safe.
ghost use Rattle.std.specs.Prelude.{◌≡◌, false, List, ℕ};
ghost use Rattle.state.specs.State.{view, saved};
ghost use Rattle.script.specs.Driver.{open_packet, close_packet};
ghost use Rattle.script_ops.specs.Concrete.{go};
ghost use Rattle.isochronous.specs.Packets.{answered, ShownAt, opening, closing};

use regs::Dir;
use script_ops::rings::{
    close_oldest, is_on, next_len, next_stamp, oldest_at, open_oldest, opened, waiting,
};
use script_ops::rows;
use script_ops::rows::{low, refusal};
use state::{State, load_ep};

// The row that refuses the call; an open packet's offset into the slots, its length and its stamp; or nothing to tell.
#[derive(Clone, Copy)]
pub enum Packet {
    Refused(u8),
    Shown(u32, u16, u16),
    Ok,
}

// The oldest packet is shown in the ring's slot, which stays its own (mod.rs 257-268).
fn open_at(s: &mut State, e: u8) -> Packet
    ensures by_index { (b : List ℕ) → answered result (view s.new) b ≡ go (opening e) (view s.old) b }
    ensures s_unchanged { saved s.new ≡ saved s.old }
    ensures shown_at { ShownAt result (view s.new) e }
{
    let r = load_ep(s, Dir::Out, e);
    if is_on(r.iso) {
        if waiting(s, Dir::Out, e) {
            open_oldest(s, e);
            let at = oldest_at(s, e);
            let n = next_len(s, Dir::Out, e);
            let stamp = next_stamp(s, e);
            return Packet::Shown(at, n, stamp);
        }
        return Packet::Refused(rows::NO_PACKET);
    }
    Packet::Refused(rows::NOT_ISOCHRONOUS)
}

// `iso_out_take`, its first part.
pub fn iso_out_take(s: &mut State, buf: &[u8], e: u32) -> Packet
    ensures buf_after { answered result (view s.new) buf.now
        ≡ go (open_packet {i = false} e) (view s.old) buf.now }
    ensures s_unchanged { saved s.new ≡ saved s.old }
    ensures shown_at { ShownAt result (view s.new) e }
{
    let row = refusal(s, Dir::Out, e);
    if row == 0 {
        return open_at(s, low(e));
    }
    Packet::Refused(row)
}

// The open packet's slot goes back to the ring (mod.rs 269).
fn close_at(s: &mut State, e: u8) -> Packet
    ensures by_index { (b : List ℕ) → answered result (view s.new) b ≡ go (closing e) (view s.old) b }
    ensures s_unchanged { saved s.new ≡ saved s.old }
{
    if opened(s, e) {
        close_oldest(s, e);
        return Packet::Ok;
    }
    Packet::Refused(rows::NOT_OPEN)
}

// And its last.
pub fn iso_out_take_close(s: &mut State, e: u32) -> Packet
    ensures by_index { (b : List ℕ) → answered result (view s.new) b
        ≡ go (close_packet {i = false} e) (view s.old) b }
    ensures s_unchanged { saved s.new ≡ saved s.old }
{
    let row = refusal(s, Dir::Out, e);
    if row == 0 {
        return close_at(s, low(e));
    }
    Packet::Refused(row)
}
