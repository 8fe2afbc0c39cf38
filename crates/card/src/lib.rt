// the data CRC of USB 2.0; packets on the card as a stream of blocks, and what a reader gives; the reader of a stream;
// the writer, one lent block at a time.
#![tactic(auto)]

pub mod crc; // crc.rt: the data CRC of USB 2.0
pub mod refusal; // refusal.rt: why the calls here are refused
pub mod stream; // stream.rt: packets on the card as a stream of blocks, and what a reader gives
pub mod reader; // reader.rt: the reader of a stream
mod blocks; // blocks.rt: what stands in a block of a stream
pub mod reading; // reading.rt: the packets of a stream
pub mod batches; // batches.rt: as many packets at once as a room holds
pub mod writer; // writer.rt: the writer, one lent block at a time
mod writer_blocks; // writer_blocks.rt: what is put into a block
pub mod writing; // writing.rt: the calls
