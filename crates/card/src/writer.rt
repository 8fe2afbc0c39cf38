// Packets on the card: the writer, which fills one lent block of 512 bytes at a time. No call takes the driver, and any
// numbers are safe in a writer.

// A writer: the number of the block it fills, how many bytes of packet data that block holds, the offset of the first
// packet that begins in it, 65,535 if none yet, and how many bytes of the packet under way are written.
#[derive(Clone, Copy)]
pub struct Writer {
    pub number: u32,
    pub used: u16,
    pub first: u16,
    pub done: u16,
}

// A piece of a packet that was written: the writer behind it; is the block full, so that it is to be stored and the
// next one lent, and is the packet written whole?
#[derive(Clone, Copy)]
pub struct Piece {
    pub next: Writer,
    pub full: bool,
    pub done: bool,
}
