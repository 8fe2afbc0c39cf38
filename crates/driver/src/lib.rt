// Start-up (mod.rs 886-951), new endpoints (endpoint.rs 18-36), EP0's start (mod.rs 1144-1178), the microframe and
// paced endpoints (mod.rs 236-238,
// 308-317): their points, and the first access of each.
#![tactic(auto)]

use bits::mask_with;
use points::{CLEAR, EP0_PLACE, FRAME_NO, MAX_LEN, endpoint, point};
use regs::{Access, Dir, Reg};
use state::{Saved, State, load_globals, store_globals, store_paced};

pub mod announce; // announce.rt: the endpoints of a list announced, one after the other
pub mod points; // points.rt: the numbers of the points, and what is saved of each
pub mod alloc_all; // alloc_all.rt: a list's endpoints allocated and announced

ghost use Rattle.std.specs.Prelude.{◌≡◌, List, ℕ, ◌<◌};
ghost use Rattle.state.specs.State.{view, saved};
ghost use Rattle.script.specs.Tree.{ends};
ghost use Rattle.script.specs.Script.{run};
ghost use Rattle.script_ops.specs.Means.{Means, MeansAt};
ghost use Rattle.script_ops.specs.Concrete.{concrete, go};
ghost use Rattle.driver.specs.Points.{start_up, new_endpoint, start_ep0, microframe, set_paced, meaning, Linked};

// The access that was handed out last, and what the rest needs.
#[derive(Clone, Copy)]
pub enum Point {
    // start-up, with the callback
    Clear(bool),
    Wait(bool),
    Reset(bool),
    ResetEnd(bool),
    Host(bool),
    Run(bool),
    IntEn,
    // a new endpoint: its direction, kind and number
    MaxLen(Dir, u8, u8),
    Place(u8),
    // EP0's start, with the maximum
    Ep0Place(u32),
    Ep0MaxLen,
    Ep0Rx,
    Ep0Tx,
    Ep0Packet,
    // the microframe
    FrameNo,
    // a list's endpoints: direction, kind and number of the one that is announced; how many are left, how many there
    // are
    ListMaxLen(Dir, u8, u8, u8, u8),
    ListPlace(Dir, u8, u8, u8),
}

// The next access and the record of the point at which the operation stops, or its result, 0 where it has none.
#[derive(Clone, Copy)]
pub enum Next {
    Asks(Access, Saved),
    Ends(u16),
}

// `Driver::new`, 907-941, on a fresh state.
pub fn start_up(callback: bool) -> Next
    ensures { Means (meaning result) (Linked result) (run concrete (start_up callback)) }
{
    Next::Asks(
        Access::Write(Reg::Ctrl, 0, regs::ctrl::clear()),
        point(CLEAR, callback, 0),
    )
}

// `Endpoint::new`, after an accepted allocation.
pub fn new_endpoint(dir: Dir, kind: u8, maximum: u32, ep: u8) -> Next
    ensures { Means (meaning result) (Linked result) (run concrete (new_endpoint dir kind maximum ep)) }
{
    Next::Asks(
        Access::Write(Reg::EpMaxLen, ep, maximum),
        endpoint(MAX_LEN, dir, kind, ep, 0, 0),
    )
}

// `start`, after EP0's buffer was given.
pub fn start_ep0(s: &State, maximum: u32) -> Next
    ensures { MeansAt (meaning result) (Linked result) (run concrete (start_ep0 maximum)) s.now }
{
    let g = load_globals(s);
    Next::Asks(Access::Ep0Dma(g.ep0_buf), point(EP0_PLACE, false, maximum))
}

// Begins `microframe`: reads frame_no.
pub fn microframe() -> Next
    ensures { Means (meaning result) (Linked result) (run concrete microframe) }
{
    Next::Asks(Access::Read(Reg::FrameNo, 0), point(FRAME_NO, false, 0))
}

// `iso_in_set_paced`, without an access.
pub fn iso_in_set_paced(s: &mut State, e: u8, on: bool)
    requires { e < 16 }
    ensures by_index { (b : List ℕ) → ends tt (view s.new, b)
        ≡ go (set_paced e on) (view s.old) b }
    ensures s_unchanged { saved s.new ≡ saved s.old }
{
    let mut g = load_globals(s);
    g.iso_in_paced = mask_with(g.iso_in_paced, e, on);
    store_globals(s, g);
    store_paced(s, e, frame::NO_FRAME);
}
