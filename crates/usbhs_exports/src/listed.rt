// Endpoints from a configuration descriptor, exported.
ghost use Rattle.std.specs.Prelude.{◌≡◌};
ghost use Rattle.script.specs.Machine.{begin};
ghost use Rattle.script.specs.Calls.{other, AllocateAll};
ghost use Rattle.usbhs_c.specs.Calls.{Answers};
ghost use Rattle.usbhs_c.specs.Preview.{shown_by, word_by, numbers_by, buffers_by, refusal_by};

use state::State;

// All endpoints of a configuration descriptor, or none.
#[unsafe(no_mangle)]
pub extern "C" fn usbhs_allocate_all(s: &mut State, bytes: &[u8]) -> u64
    ensures { Answers result (begin (other (AllocateAll bytes.now))) s.old s.new }
{
    usbhs_c::listed::usbhs_allocate_all(s, bytes)
}

// What allocating them one by one would give: the numbers given, the buffers that these take, the first refusal or 0.
#[unsafe(no_mangle)]
pub extern "C" fn usbhs_preview(
    s: &State,
    bytes: &[u8],
    numbers: &mut [u8; 32],
    buffers: &mut u32,
    refusal: &mut u32,
) -> u64
    ensures value { result ≡ word_by (shown_by s.now bytes.now).said
        (shown_by s.now bytes.now) }
    ensures numbers_after { numbers.new ≡ numbers_by (shown_by s.now bytes.now).said
        (shown_by s.now bytes.now) numbers.old }
    ensures buffers_after { buffers.new ≡ buffers_by (shown_by s.now bytes.now).said
        (shown_by s.now bytes.now) buffers.old }
    ensures refusal_after { refusal.new ≡ refusal_by (shown_by s.now bytes.now).said
        (shown_by s.now bytes.now) refusal.old }
{
    usbhs_c::listed::usbhs_preview(s, bytes, numbers, buffers, refusal)
}
