// Reads and writes (endpoint.rs 82-195), each a begin and a poll. Rows 4, 5, 9, 10 and 15 are checked here, 1 and 3 by
// the caller. Any number is safe as an endpoint's.
#![tactic(auto)]

mod checks;
mod read;
mod write;
pub mod common; // common.rt: what reads, writes and the control pipe share
pub mod points; // points.rt: the numbers of the points, and what is saved of each

pub use read::{begin_read, poll_read};
use regs::{Access, Dir};
use state::Saved;
pub use write::{begin_write, poll_write};

// Where an operation stops.
#[derive(Clone, Copy)]
pub enum Point {
    Ack(Dir, u8), // the control word is read, to answer ACK
    Wrote, // the last write is done
    Loaded(u8), // ep_t_len is written
}

#[derive(Clone, Copy)]
pub enum Begun {
    Refused(u8),
    Asks(Access, Saved),
    Ends(u16),
}

// Done brings so many bytes at the lent slice's front.
#[derive(Clone, Copy)]
pub enum Polled {
    Refused(u8),
    NotYet,
    Done(u16),
}
