// An access as a person reads it.
use crate::registers::{Meaning, Register, Value};
use regs::Access;
use std::{fmt, io};

// The endpoint of a buffer's address, but for EP0's.
#[derive(Clone, Copy)]
struct Endpoint(u8);

impl fmt::Display for Endpoint {
    fn fmt<W: fmt::Write>(&self, f: &mut fmt::Formatter<W>) -> fmt::Result {
        match self.0 {
            0 => Ok(()),
            e => write!(f, "({e})"),
        }
    }
}

// An access with what its value says. A buffer's address is an offset into the slots.
#[derive(Clone, Copy)]
pub struct Shown(pub Access);

impl fmt::Display for Shown {
    fn fmt<W: fmt::Write>(&self, f: &mut fmt::Formatter<W>) -> fmt::Result {
        match self.0 {
            Access::Read(reg, e) => write!(f, "read {}", Register(reg, e)),
            Access::Write(reg, e, x) => write!(
                f,
                "write {} = {}  {}",
                Register(reg, e),
                Value(reg, x),
                Meaning(reg, x)
            ),
            Access::Receive(e, x) => write!(
                f,
                "write ep_rx_dma{} = {x:#010x}  receives at slot byte {x}",
                Endpoint(e)
            ),
            Access::Transmit(e, x) => write!(
                f,
                "write ep_tx_dma{} = {x:#010x}  sends from slot byte {x}",
                Endpoint(e)
            ),
            Access::Ep0Dma(x) => write!(
                f,
                "write ep0_dma = {x:#010x}  EP0's buffer at slot byte {x}"
            ),
            Access::Wait(n) => write!(f, "wait {n} us"),
            Access::Callback => f.write_str("start-of-frame callback"),
        }
    }
}

pub fn access(rt: &impl Print, q: Access) -> io::Result<()> {
    print!(rt; "{}", Shown(q))
}
