// `iso_in_advance` (mod.rs 323-340): a paced endpoint completes once for each microframe since the last advance, three
// times at most.
ghost use Rattle.std.specs.Prelude.{◌≡◌};
ghost use Rattle.bits.specs.Bit.{bit_is_set};
ghost use Rattle.script.specs.Script.{run};
ghost use Rattle.script_ops.specs.Means.{MeansFrom};
ghost use Rattle.script_ops.specs.Concrete.{concrete};
ghost use Rattle.isochronous.specs.Advance.{advance, meaning, Linked};

use crate::complete::Complete;
use crate::points::{FRAME_NO, point};
use bits::mask_has;
use regs::{Access, Dir, Reg, enables};
use state::{Saved, State, load_globals, store_paced};

#[derive(Clone, Copy)]
pub enum Advance {
    FrameNo(u8), // frame_no is read, for an endpoint
    Completing(u8, u8, u16, Complete), // the endpoint completes; how often more, and the microframe to keep then
}

#[derive(Clone, Copy)]
pub enum AdvanceNext {
    Asks(Access, Saved),
    Ends(u16),
}

fn is_paced(mask: u16, e: u8) -> bool
    ensures { result ≡ bit_is_set mask e }
{
    if e < 16 {
        return mask_has(mask, e);
    }
    false
}

pub fn iso_in_advance(s: &mut State, e: u8) -> AdvanceNext
    ensures { MeansFrom (meaning result) (Linked result) (run concrete (advance e)) s.old s.new }
{
    let g = load_globals(s);
    if is_paced(g.iso_in_paced, e) {
        if enables::is_on(g.ep_config, Dir::In, e) {
            return AdvanceNext::Asks(Access::Read(Reg::FrameNo, 0), point(FRAME_NO, e, 0, 0, 0));
        }
        store_paced(s, e, frame::NO_FRAME);
        return AdvanceNext::Ends(0);
    }
    AdvanceNext::Ends(0)
}
