// An isochronous IN's packet queued in place (mod.rs 342-395). No access is handed out; rows 1 and 3 are the caller's.
// Every function is total: any number is safe.
ghost use Rattle.std.specs.Prelude.{◌≡◌, false};
ghost use Rattle.state.specs.State.{view, saved};
ghost use Rattle.script.specs.Driver.{queue_packet};
ghost use Rattle.script_ops.specs.Concrete.{go};
ghost use Rattle.isochronous.specs.Packets.{answered};
ghost use Rattle.isochronous.specs.Queue.{queueing};

use crate::open_close::Packet;
use regs::{Dir, enables};
use script_ops::rings::{is_on, iso_in_enqueue, room};
use script_ops::rows;
use script_ops::rows::{low, refusal};
use state::{State, load_allocator, load_ep, load_globals};

// The packet is copied into the head's slot, where there is room (mod.rs 366-395).
fn queue_at(s: &mut State, buf: &mut [u8], e: u8, bytes: &[u8]) -> Packet
    ensures buf_after { answered result (view s.new) buf.new
        ≡ go (queueing e bytes.now) (view s.old) buf.old }
    ensures s_unchanged { saved s.new ≡ saved s.old }
{
    let g = load_globals(s);
    if enables::is_on(g.ep_config, Dir::In, e) {
        let a = load_allocator(s);
        if (a.size as usize) < bytes.len() {
            return Packet::Refused(rows::LENGTH);
        }
        let r = load_ep(s, Dir::In, e);
        if is_on(r.iso) {
            if room(s, e, bytes.len()) {
                iso_in_enqueue(s, buf, e, bytes);
                return Packet::Ok;
            }
            return Packet::Refused(rows::FULL);
        }
        return Packet::Refused(rows::NOT_ISOCHRONOUS);
    }
    Packet::Refused(rows::DISABLED)
}

// `iso_in_prime`.
pub fn iso_in_prime(s: &mut State, buf: &mut [u8], e: u32, bytes: &[u8]) -> Packet
    ensures buf_after { answered result (view s.new) buf.new
        ≡ go (queue_packet {i = false} e bytes.now) (view s.old) buf.old }
    ensures s_unchanged { saved s.new ≡ saved s.old }
{
    let row = refusal(s, Dir::In, e);
    if row == 0 {
        return queue_at(s, buf, low(e), bytes);
    }
    Packet::Refused(row)
}
