// A recorder above request Eleven, for a card that is written over: a stream that says at every moment where it ends.
#![tactic(auto)]

pub mod recorder; // recorder.rt: what a recorder keeps, and what its calls answer
mod blocks; // blocks.rt: packets into a ring of four lent blocks
pub mod recording; // recording.rt: the calls
