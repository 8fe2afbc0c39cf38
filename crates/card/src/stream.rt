// Packets on the card as a stream of blocks of 512 bytes: the definitions, in specs/, and what they name.

// What is found at a packet begin: nothing more, another begin to go on at, or a packet. An enum of its own: two of the
// three have values, so that an Option in a Result would say no more plainly which is which.
#[derive(Clone, Copy)]
pub enum Step {
    Ends,
    Goes(usize),
    Gives { endpoint: u8, len: u16 },
}

// A packet of the stream: where it begins, its endpoint, how many bytes.
#[derive(Clone, Copy)]
pub struct Found {
    pub at: usize,
    pub endpoint: u8,
    pub len: u16,
}
