// The registers as a person reads them: the name, the value's digits, what the value says.
pub use crate::words::{Meaning, Name, Register, Value};
use regs::Reg;
use std::io;

pub fn name(rt: &impl Print, reg: Reg) -> io::Result<()> {
    print!(rt; "{}", Name(reg))
}

// Is there one of it for each endpoint?
pub fn has_endpoint(reg: Reg) -> bool {
    matches!(
        reg,
        Reg::EpMaxLen | Reg::EpTLen | Reg::EpRxCtrl | Reg::EpTxCtrl
    )
}

// This one and the next differ in their type alone; both are public.
pub fn value(rt: &impl Print, reg: Reg, x: u32) -> io::Result<()> {
    print!(rt; "{}", Value(reg, x))
}

pub fn meaning(rt: &impl Print, reg: Reg, x: u32) -> io::Result<()> {
    print!(rt; "{}", Meaning(reg, x))
}
