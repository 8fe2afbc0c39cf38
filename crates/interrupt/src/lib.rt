// The interrupt (`on_interrupt`, mod.rs 634-852) one access at a time. Every function is total: any number is safe.
#![tactic(auto)]

use isochronous::complete::Complete;
use isochronous::late::Late;
use isochronous::out::Check;
use isochronous::sof::Sof;
use nak::Nak;
use regs::{Access, Dir, Reg};
use script::Transfer;
use settle::Settle;
use toggled::Toggled;

pub mod nak; // nak.rt: `nak_non_iso`
pub mod settle; // settle.rt: a transfer whose transaction was on the bus
pub mod toggled; // toggled.rt: `toggled`
pub mod wait; // wait.rt: the wait for sie_free, readings as numbers
pub mod sites; // sites.rt: the numbers of the interrupt's points
pub mod codec; // codec.rt: their parts in the saved record
pub mod loads; // loads.rt: what a point has, each part loaded alone
pub mod stands; // stands.rt: the interrupt stands at a point, all of whose bytes are stored, or ends
pub mod check; // check.rt: isochronous OUTs looked at, EP0's hidden stage, the setup
pub mod setup; // setup.rt: a new control transfer
pub mod tokens; // tokens.rt: what a token completes
pub mod interrupt_entry; // interrupt_entry.rt: the interrupt's flags, the transfer that is entered
pub mod flags; // flags.rt: the microframe, the flags but the setup's
pub mod framing; // framing.rt: the frame is read
pub mod serving; // serving.rt: the microframe's SOF and a late entry's completions
pub mod resume; // resume.rt: the interrupt goes on: one function for each of its points
pub mod rest; // rest.rt: isochronous OUTs looked at, EP0's hidden stage, a new control transfer (mod.rs 792-852)

ghost use Rattle.std.specs.Prelude.{◌≡◌, List, ℕ};
ghost use Rattle.state.specs.Driver.{Driver};
ghost use Rattle.script_ops.specs.Concrete.{go};
ghost use Rattle.interrupt.specs.Points.{interrupt, meaning, Linked};

// What an entry of the interrupt has found out: whether the setup flag is set, the transfer, whether its endpoint is
// isochronous, the frame (0 until it is read).
#[derive(Clone, Copy)]
pub struct Entry {
    pub setup: bool,
    pub x: Transfer,
    pub iso: bool,
    pub frame: u16,
}

// Where the interrupt stands: what it handed out last, with what the rest of it needs. First, of a transfer, comes
// whether the setup flag is set, then the transfer, whether its endpoint is isochronous, the frame.
#[derive(Clone, Copy)]
pub enum Point {
    Frame, // frame_no is read, whose microframe index what the interrupt admits carries
    Flags, // int_fg is read
    BusRst(u8), // the reset interrupt is masked; the flags
    Suspend(u8), // the suspend interrupt is
    Fifo(u8), // the FIFO flag is cleared
    Host(u8), // the host SOF flag is
    Mis(bool), // mis_st is read
    St(bool, bool), // int_st; busy
    Len(bool, bool, u8), // rx_len; busy, int_st
    Nak(bool, Transfer, Nak), // NAK before the release
    Released(bool, Transfer), // the transfer flag is cleared
    Settle(bool, Transfer, Settle), // what was on the bus is waited for
    FrameNo(bool, Transfer, bool), // frame_no is read
    Sof(bool, Transfer, bool, u16, Sof), // a SOF that was not handled
    Late(bool, Transfer, bool, u16, Late), // a late entry's completions
    SofArm(bool, Transfer, bool, u16, Sof), // the arm of SOF
    Flip(Dir, bool, Transfer, bool), // EP0's control word is read
    Flipped(Dir, bool, Transfer, bool), // its toggle is flipped
    Toggled(Dir, bool, Transfer, bool, Toggled), // did a packet go through?
    Completing(bool, Transfer, bool, Complete), // an isochronous IN completes
    Check(bool, Transfer, bool, Check), // isochronous OUTs are looked at
    MovedRead(Dir, bool), // EP0's control word is read, for its hidden stage
    MovedWrote(Dir, bool), // it answers NAK
    SetupRx, // EP0's OUT answers NAK
    SetupTx, // and its IN
    SetupReleased, // the setup flag is cleared
}

// The next access with the point at which the interrupt stops, or its result.
#[derive(Clone, Copy)]
pub enum Next {
    Asks(Access, Point),
    Ends(u16),
}

// `on_interrupt` begins (mod.rs 637), with a frame reading before it.
pub fn on_interrupt() -> Access
    ensures b_value { (d : Driver) (b : List ℕ) → meaning (Next.Asks result Point.Frame) d b ≡ go interrupt d b }
    ensures linked { Linked (Next.Asks result Point.Frame) }
{
    Access::Read(Reg::FrameNo, 0)
}
