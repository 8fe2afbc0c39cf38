// Packets on the card: the reader of a whole stream. No call takes the driver, and any number is safe in a reader.

// A reader: the place, counted over the packet data of all blocks, at which it goes on.
#[derive(Clone, Copy)]
pub struct Reader {
    pub at: usize,
}

// A packet in the caller's room: its endpoint, how many bytes, and the reader behind it.
#[derive(Clone, Copy)]
pub struct Packet {
    pub endpoint: u8,
    pub len: u16,
    pub then: Reader,
}

// Some packets one behind the other: how many, how many bytes, and the reader behind them.
#[derive(Clone, Copy)]
pub struct Batch {
    pub count: usize,
    pub used: usize,
    pub then: Reader,
}
