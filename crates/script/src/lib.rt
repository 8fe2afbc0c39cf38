// The Rust as scripts, and the theorems about every script. It has no code.
#![tactic(auto)]

// What an interrupt knows of the transfer it serves (`on_interrupt`'s locals): whether the SIE is busy with it, the
// status, the received length, whether an isochronous OUT was waited for (`out_late`), whether the length is the
// packet's (`rx_len_ok`).
#[derive(Clone, Copy)]
pub struct Transfer {
    pub busy: bool,
    pub st: u8,
    pub len: u16,
    pub late: bool,
    pub len_ok: bool,
}
