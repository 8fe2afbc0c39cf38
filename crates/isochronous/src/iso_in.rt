// Isochronous IN (mod.rs 323-340, 397-414, 558-608, 736-746), one access at a time. Every function is total: any number
// is safe.

ghost use Rattle.std.specs.Prelude.{◌≡◌, true};
ghost use Rattle.regs.specs.Registers.{fits_in};
ghost use Rattle.state.specs.State.{view, saved};
ghost use Rattle.script.specs.Statics.{every_iso_in};
ghost use Rattle.isochronous.specs.Frames.{framed_on, is_first};

use bits::mask_except;
use regs::Dir;
use regs::enables::in_enabled;
use state::{Globals, State, load_ep, store_ep};

// A walk's next endpoint that is not passed over, with the mask of those after it.
#[derive(Clone, Copy)]
pub enum Found {
    At(u8, u16),
    Nothing,
}

// `iso_in_every` (mod.rs 80-92).
pub fn iso_in_every(g: Globals) -> u16
    ensures { result ≡ every_iso_in g }
{
    in_enabled(g.ep_config, mask_except(g.iso_in_every, g.iso_in_paced))
}

// The microframe of an IN's completion is recorded.
pub(crate) fn record_frame(s: &mut State, e: u8, frame: u16)
    ensures s_after { view s.new ≡ framed_on (view s.old) e frame }
    ensures s_unchanged { saved s.new ≡ saved s.old }
{
    let mut r = load_ep(s, Dir::In, e);
    r.last_frame = frame;
    store_ep(s, Dir::In, e, r);
}

// `first_in_frame` (mod.rs 397-403).
pub fn first_in_frame(s: &mut State, e: u8, frame: u16) -> bool
    ensures value { result ≡ is_first (view s.old) e frame }
    ensures s_after { view s.new ≡ framed_on (view s.old) e frame }
    ensures s_unchanged { saved s.new ≡ saved s.old }
{
    let r = load_ep(s, Dir::In, e);
    let first = r.last_frame != frame;
    record_frame(s, e, frame);
    first
}

// A reading of 8 bits or less.
pub(crate) fn byte(v: u32) -> u8
    requires { fits_in v 8 ≡ true }
    ensures { result ≡ v }
{
    v as u8
}
