// A recorder fills a lent room of four blocks, a ring: block k lies at k % 4. Behind the packets recorded there is an
// end record. No call takes the driver, and any numbers are safe in a recorder.

// The number of the block it fills, the bytes of packet data in that block and the offset of the first packet that
// begins there, as a writer has them; the first block that is not stored for good; how many blocks from there on are
// still to be stored, the last first; the survey's number.
#[derive(Clone, Copy)]
pub struct Recorder {
    pub number: u32,
    pub used: u16,
    pub first: u16,
    pub from: u32,
    pub left: u32,
    pub survey: u32,
}
