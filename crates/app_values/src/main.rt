// Document 01's "Values to check", run: the one that is not proved, and those of the proved that these crates answer.
#![tactic(auto)]

use frame::{Frame, Index};
use std::io;

// A line: what is asked, and the number answered.
fn answer(rt: &impl Print, question: &str, number: u16) -> io::Result<()> {
    println!(rt; "{question}: {number}")
}

// The same with a register's value, in hexadecimal.
fn answer_register(rt: &impl Print, question: &str, value: u16) -> io::Result<()> {
    println!(rt; "{question}: 0x{value:04x}")
}

fn index(register: u16) -> u16 {
    frame::microframe_index(Frame(register)).0
}

fn register(index: u16) -> u16 {
    frame::frame_of_index(Index(index)).0
}

// What an advance completes from one index to another.
fn advance(from: u16, to: u16) -> u16 {
    frame::completions(frame::frame_of_index(Index(from)), Index(to))
}

fn indices(rt: &impl Print) -> io::Result<()> {
    answer(rt, "index of 0x0000", index(0x0000))?;
    answer(rt, "index of 0xE7FF", index(0xE7FF))?;
    answer(rt, "index of 0x1800", index(0x1800))
}

fn registers(rt: &impl Print) -> io::Result<()> {
    answer_register(rt, "frame of 9", register(9))?;
    answer_register(rt, "frame of 16383", register(16383))?;
    answer_register(rt, "frame of 16384", register(16384))
}

fn advances(rt: &impl Print) -> io::Result<()> {
    answer(rt, "advance from 16383 to 1", advance(16383, 1))?;
    answer(rt, "advance from 5 to 5", advance(5, 5))?;
    answer(rt, "advance from 5 to 4", advance(5, 4))
}

// A marked slot whose maximum is 8, with a packet stored in it.
fn stored(packet: &[u8]) -> [u8; 8] {
    let mut slot = [0u8; 8];
    ring::marks::iso_out_arm(&mut slot, 0, 8);
    ring::marks::copy_in(&mut slot, 0, packet);
    slot
}

// The length by marks of a packet that is stored.
fn length(packet: &[u8]) -> u16 {
    ring::marks::marked_len(&stored(packet), 0, 8)
}

fn lengths(rt: &impl Print) -> io::Result<()> {
    answer(
        rt,
        "slot 01 02 03 04 C3 A5 3C 5A, length",
        length(&[0x01, 0x02, 0x03, 0x04]),
    )?;
    answer(
        rt,
        "packet 01 02 03 04 C3 A5, length",
        length(&[0x01, 0x02, 0x03, 0x04, 0xC3, 0xA5]),
    )?;
    answer(
        rt,
        "slot 01 02 03 04 05 A5 3C 5A, length",
        length(&[0x01, 0x02, 0x03, 0x04, 0x05]),
    )
}

// Does a packet that is stored arrive?
fn arrives(packet: &[u8]) -> bool {
    !ring::marks::is_marked(&stored(packet), 0)
}

fn arrival(rt: &impl Print, question: &str, packet: &[u8]) -> io::Result<()> {
    if arrives(packet) {
        println!(rt; "{question}: an arrival")
    } else {
        println!(rt; "{question}: no arrival")
    }
}

fn main(rt: HostRuntime) -> io::Result<()> {
    indices(&rt)?;
    registers(&rt)?;
    advances(&rt)?;
    lengths(&rt)?;
    arrival(&rt, "a packet of one byte", &[0x01])?;
    arrival(&rt, "an empty packet", &[])
}
