// Endpoints from a configuration descriptor.
ghost use Rattle.std.specs.Prelude.{◌≡◌};
ghost use Rattle.script.specs.Machine.{begin};
ghost use Rattle.script.specs.Calls.{other, AllocateAll};
ghost use Rattle.usbhs_c.specs.Calls.{Answers};
ghost use Rattle.usbhs_c.specs.Preview.{shown_by, word_by, numbers_by, buffers_by, refusal_by};

use answer::word::word_of;
use descriptor::preview::Said;
use state::State;

// All endpoints of a configuration descriptor, or none.
pub fn usbhs_allocate_all(s: &mut State, bytes: &[u8]) -> u64
    ensures { Answers result (begin (other (AllocateAll bytes.now))) s.old s.new }
{
    word_of(calls::listed_calls::allocate_all(s, bytes))
}

// What allocating them one by one would give: the numbers given, the buffers that these take, the first refusal or 0.
pub fn usbhs_preview(
    s: &State,
    bytes: &[u8],
    numbers: &mut [u8; 32],
    buffers: &mut u32,
    refusal: &mut u32,
) -> u64
    ensures value { result ≡ word_by (shown_by s.now bytes.now).said
        (shown_by s.now bytes.now) }
    ensures numbers_after { numbers.new ≡ numbers_by (shown_by s.now bytes.now).said
        (shown_by s.now bytes.now) numbers.old }
    ensures buffers_after { buffers.new ≡ buffers_by (shown_by s.now bytes.now).said
        (shown_by s.now bytes.now) buffers.old }
    ensures refusal_after { refusal.new ≡ refusal_by (shown_by s.now bytes.now).said
        (shown_by s.now bytes.now) refusal.old }
{
    let x = calls::listed_calls::preview(s, bytes);
    let said = x.said;
    match said {
        Said::Refused(row) => row as u64 * 0x100,
        Said::Tried => {
            let given = x.numbers;
            *numbers = given;
            *buffers = x.buffers;
            *refusal = x.refusal as u32;
            5 + (x.count % 256) as u64 * 0x100
        }
    }
}
