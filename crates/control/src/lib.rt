// The control pipe (control.rs 26-186): one request, each stage a begin and a poll. Rows 4, 15, 10 and 9 are checked
// here, 1 and 3 by the caller.
#![tactic(auto)]

mod begin;
mod checks;
mod poll;
pub mod points; // points.rt: the numbers of the points, and what is saved of each

pub use begin::{accept, accept_set_address, data_in, data_out, reject, setup};
pub use poll::{poll_accept, poll_data_in, poll_data_out, poll_setup};
use regs::{Access, Dir};
use state::Saved;

// Where an operation stops: what was handed out last, or which reading is awaited.
#[derive(Clone, Copy)]
pub enum Point {
    Wrote,
    Ack(Dir),
    StatusLen,
    Status,
    StallIn,
    StalledIn,
    StallOut,
    Closing(u16, bool),
    Loaded(bool),
}

#[derive(Clone, Copy)]
pub enum Begun {
    Refused(u8),
    Asks(Access, Saved),
    Ends(u16),
}

// Done brings so many bytes at the lent slice's front, Setup a setup packet as two words, lowest byte first.
#[derive(Clone, Copy)]
pub enum Polled {
    Refused(u8),
    NotYet,
    Done(u16),
    Setup(u32, u32),
    Asks(Access, Saved),
}
