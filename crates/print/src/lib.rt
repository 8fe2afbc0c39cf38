// The chip's registers and accesses, and what a call answers, in words: each a type with an `impl Display`, and a
// function that writes it to standard output.
// No function here has an `ensures`: what is written has no place in a contract. Proved is that none traps or runs on,
// for any value; what is written is compared with a file (`crates/app_readout/stdout`). Where one answers a bool, it
// only says which words come next.
#![tactic(auto)]

pub mod accesses; // accesses.rt: an access, with the value's meaning
mod words; // words.rt: what is written of a register, named in registers and text
pub mod registers; // registers.rt: names, values, meanings
pub mod text; // text.rt: text, numbers and lists
pub mod answers; // answers.rt: a call's answer in words
