// The bus (mod.rs 1053-1106, 1187-1330): the points of its operations, one access at a time. Every function is total:
// any number is safe.
#![tactic(auto)]

use regs::{Access, Dir};
use state::Saved;

pub mod points; // points.rt: their numbers, and what is saved of each
pub mod set_stalled; // set_stalled.rt: endpoints stalled and restarted
pub mod set_enabled; // set_enabled.rt: endpoints enabled and disabled
pub mod events; // events.rt: the bus goes on: enable, poll with reset, suspend and resume
pub mod event; // event.rt: power, reset, suspend and resume
pub mod iso_out_enable; // iso_out_enable.rt: an isochronous OUT enabled and disabled: its row of accesses

ghost use Rattle.std.specs.Prelude.{◌≡◌, true};
ghost use Rattle.regs.specs.Registers.{fits_in};

pub use script_ops::points::flag_of;

// Where an operation stands: what it handed out last, with what the rest of it needs.
#[derive(Clone, Copy)]
pub enum Point {
    Enable, // ctrl is read
    Event(u8), // the last access; the result
    Stalled, // a control word is read, to be asked
    StallLen(u8), // ep_t_len is 0
    StallWord(Dir, u8), // a control word is read, to be stalled
    Restarted(u8, bool), // an IN's control word is restarted; isochronous
    Woken(Dir, u8), // the last access; the endpoint is woken
    Flags, // int_fg is read
    Status, // mis_st is read
    Released(bool), // the suspend flag is cleared; suspended
    Address, // dev_ad is 0
    Ep0Out, // EP0's OUT answers ACK
    NakIn(u8), // IN e answers NAK
    Naked(u8), // endpoint e answers NAK
    Disabled, // ep_config is 0
    Untyped, // ep_type is 0
    Single, // ep_buf_mod is 0
    Reset, // the reset flag is cleared
    PlacedOut(u8, bool), // an OUT's address is set; enabled
    PlacedIn(u8, bool, bool), // an IN's; isochronous, enabled
    NoLength(u8, bool, bool), // ep_t_len is 0
    Words(Dir, u8, bool, bool), // the control word is set; isochronous, enabled
    Type(Dir, u8, bool), // ep_type is set; enabled
    Switch(u8, bool, u8), // in the row of an isochronous OUT; enabled, how many of its accesses are left
}

// The next access with the record of the point at which the operation stops, or its result.
#[derive(Clone, Copy)]
pub enum Next {
    Asks(Access, Saved),
    Ends(u16),
}

// A reading of a byte or less.
pub fn byte(v: u32) -> u8
    requires { fits_in v 8 ≡ true }
    ensures { result ≡ v }
{
    v as u8
}
