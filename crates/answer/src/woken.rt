ghost use Rattle.std.specs.Prelude.{◌≡◌, ◌≤◌, length};
ghost use Rattle.state.specs.State.{view};
ghost use Rattle.state.specs.Wakes.{listed};

use state::State;

// How many wake-ups the state's list has: at most 64, whatever its bytes are.
pub fn how_many(s: &State) -> u8
    ensures value { result ≡ length (listed (view s.now).wakes) }
    ensures upper_bound { result ≤ 64 }
{
    let n = state::woken_count(s);
    if n <= 64 {
        return n;
    }
    64
}
