ghost use Rattle.std.specs.Prelude.{◌≡◌, length};
ghost use Rattle.ring.specs.Copies.{over};
ghost use Rattle.state.specs.State.{view};
ghost use Rattle.state.specs.Wakes.{listed};

use answer::woken::how_many;
use state::{State, woken_at};

fn sized(_b: &[u8]) {}

// The list into the caller's room, from its start on; answers how many there are.
pub fn list_into(s: &State, room: &mut [u8; 64]) -> u8
    ensures value { result ≡ length (listed (view s.now).wakes) }
    ensures room_after { room.new ≡ over (listed (view s.now).wakes) room.old }
{
    let n = how_many(s);
    sized(room);
    let mut k: u8 = 0;
    while k < n {
        room[k as usize] = woken_at(s, k);
        k += 1;
    }
    n
}
