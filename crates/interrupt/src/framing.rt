// The frame is read, and what was on the bus is its own (mod.rs 724-728).
ghost use Rattle.std.specs.Prelude.{◌≡◌, true};
ghost use Rattle.regs.specs.Registers.{fits_in};
ghost use Rattle.script.specs.Handler as script;
ghost use Rattle.interrupt.specs.Points.{denote};
ghost use Rattle.interrupt.specs.declared.Point.TheVariants as Point;
ghost use Rattle.interrupt.specs.Stands.{RunsOnWith};

use crate::Entry;
use crate::serving::serve;
use crate::wait::short;
use regs::status;
use script::Transfer;
use state::{State, load_globals};

// With this microframe's SOF handled, an isochronous IN's entry is its own (mod.rs 724-728).
fn own_in(x: Transfer, iso: bool, sof: u16, frame: u16) -> bool
    ensures { result ≡ script.own_in x iso sof frame }
{
    if x.busy {
        if iso {
            if status::is_in(x.st) {
                return sof == frame;
            }
            return false;
        }
        return false;
    }
    false
}

fn framed(x: Transfer, iso: bool, sof: u16, frame: u16) -> Transfer
    ensures { result ≡ script.framed x iso sof frame }
{
    if own_in(x, iso, sof, frame) {
        return Transfer {
            busy: false,
            st: x.st,
            len: x.len,
            late: x.late,
            len_ok: x.len_ok,
        };
    }
    x
}

pub fn after_frame_no(s: &mut State, buf: &mut [u8], e: Entry, v: u32) -> u64
    requires { fits_in v 16 ≡ true }
    ensures { RunsOnWith result (denote (Point.FrameNo e.setup e.x e.iso) v)
        s.old buf.old s.new buf.new }
{
    let frame = short(v);
    let g = load_globals(s);
    let mut f = e;
    f.frame = frame;
    f.x = framed(e.x, e.iso, g.sof_frame, frame);
    serve(s, buf, f)
}
