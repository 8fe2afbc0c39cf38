// What a call answers, as a value and as one word; the parts of the saved record and the count of wake-ups, each loaded
// alone.
#![tactic(auto)]

pub mod loads; // loads.rt: its numbers, each loaded alone
pub mod woken; // woken.rt: how many wake-ups an end gives
pub mod word; // word.rt: a call's answer as one word
pub mod call_answer_step; // call_answer_step.rt: the answer that a word says

use regs::Access;

// What a call answers: the row that stopped it, the access that it hands out, the operation's result and how many
// wake-ups the state has for it, in their order; of a poll, that it is not done, so many bytes at the lent slice's
// front, a setup packet as two words, lowest byte first; of an open packet, its offset and length in the slots and its
// stamp.
#[derive(Clone, Copy)]
pub enum Step {
    Refused(u8),
    Asks(Access),
    Ends(u16, u8),
    NotYet,
    Done(u16),
    Setup(u32, u32),
    Shown(u32, u16, u16),
}
