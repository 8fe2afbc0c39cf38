// What is saved, each number loaded alone from the record's bytes: what a point has (crates `irq_points`,
// `machine_points`). Any bytes are a point.
ghost use Rattle.std.specs.Prelude.{◌≡◌};
ghost use Rattle.state.specs.State.{saved};

use bits::le_bytes::{get8, get16, get32};
use state::State;

// Where crate `state` has the saved record.
const SAVED: usize = 0;

// The saved record's part of a part: which step of it the operation stopped at.
pub fn sub_byte(s: &State) -> u8
    ensures { result ≡ (saved s.now).sub }
{
    get8(s, SAVED, 13)
}

// The saved record's point: where the operation stopped.
pub fn site_byte(s: &State) -> u8
    ensures { result ≡ (saved s.now).site }
{
    get8(s, SAVED, 14)
}

// The saved record's flag, whose meaning is the point's.
pub fn flag_byte(s: &State) -> u8
    ensures { result ≡ (saved s.now).flag }
{
    get8(s, SAVED, 15)
}

// The saved record's note whether a transaction was on the bus.
pub fn busy_byte(s: &State) -> u8
    ensures { result ≡ (saved s.now).busy }
{
    get8(s, SAVED, 16)
}

// The saved record's note whether a late packet was found.
pub fn late_byte(s: &State) -> u8
    ensures { result ≡ (saved s.now).late }
{
    get8(s, SAVED, 17)
}

// The saved record's note whether the interrupt has a packet's length.
pub fn len_ok_byte(s: &State) -> u8
    ensures { result ≡ (saved s.now).len_ok }
{
    get8(s, SAVED, 18)
}

// The saved record's status, as the interrupt read it first.
pub fn st_byte(s: &State) -> u8
    ensures { result ≡ (saved s.now).st }
{
    get8(s, SAVED, 19)
}

// The saved record's status, as it was read last.
pub fn now_byte(s: &State) -> u8
    ensures { result ≡ (saved s.now).now }
{
    get8(s, SAVED, 20)
}

// The saved record's endpoint.
pub fn ep_byte(s: &State) -> u8
    ensures { result ≡ (saved s.now).ep }
{
    get8(s, SAVED, 21)
}

// The saved record's packet length.
pub fn len_word(s: &State) -> u16
    ensures { result ≡ (saved s.now).len }
{
    get16(s, SAVED, 4)
}

// The saved record's frame number.
pub fn frame_word(s: &State) -> u16
    ensures { result ≡ (saved s.now).frame }
{
    get16(s, SAVED, 6)
}

// The saved record's set of endpoints that are still to be walked.
pub fn eps_word(s: &State) -> u16
    ensures { result ≡ (saved s.now).eps }
{
    get16(s, SAVED, 8)
}

// The saved record's count, of looks that are left for example.
pub fn n_word(s: &State) -> u16
    ensures { result ≡ (saved s.now).n }
{
    get16(s, SAVED, 10)
}

// The saved record's 32-bit value.
pub fn value_word(s: &State) -> u32
    ensures { result ≡ (saved s.now).value }
{
    get32(s, SAVED, 0)
}
