ghost use Rattle.std.specs.Prelude.{◌≡◌, [], ◌++◌};
ghost use Rattle.ring.specs.Copies.{over};
ghost use Rattle.state.specs.Driver.{Driver};
ghost use Rattle.script.specs.Control.{word_bytes};
ghost use Rattle.machine.specs.Suspended.{answer_of, lent_by};
ghost use Rattle.usbhs_c.specs.Setup.{NoSlice};
ghost use Rattle.answer.specs.Word.{Worded};

use answer::Step;
use answer::word::word_of;

fn sized(_b: &[u8]) {}

// A setup packet's bytes, lowest first.
fn bytes_of(low: u32, high: u32) -> [u8; 8]
    ensures { result ≡ word_bytes low ++ word_bytes high }
{
    [
        (low % 256) as u8,
        (low / 256 % 256) as u8,
        (low / 65536 % 256) as u8,
        (low / 16777216 % 256) as u8,
        (high % 256) as u8,
        (high / 256 % 256) as u8,
        (high / 65536 % 256) as u8,
        (high / 16777216 % 256) as u8,
    ]
}

fn fill(packet: &mut [u8; 8], low: u32, high: u32)
    ensures packet_after { packet.new ≡ word_bytes low ++ word_bytes high }
    ensures packet_after_2 { packet.new ≡ over (word_bytes low ++ word_bytes high) packet.old }
{
    sized(packet);
    let bytes = bytes_of(low, high);
    *packet = bytes;
}

// The word of setup's poll, with the packet's bytes; no other answer of it brings any.
pub(crate) fn setup_word(packet: &mut [u8; 8], step: Step) -> u64
    requires { NoSlice step }
    ensures worded { Worded result (λ t. (d : Driver) → answer_of t packet.new d ≡ answer_of step [] d) }
    ensures packet_after { (d : Driver) → packet.new ≡ lent_by (answer_of step [] d) packet.old }
{
    match step {
        Step::Setup(low, high) => {
            fill(packet, low, high);
            word_of(Step::Done(8))
        }
        Step::Done(_n) => word_of(Step::Done(0)),
        Step::Shown(_at, _n, stamp) => word_of(Step::Shown(0, 0, stamp)),
        _ => word_of(step),
    }
}
