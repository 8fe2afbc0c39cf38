// What the driver asks of the chip, in words.
#![tactic(auto)]

use bus_time::{TIME_LEN, Time};
use calls::Step;
use print::answers::Answer;
use regs::Dir;
use state::{STATE_LEN, State};
use std::io;

// What the chip reads where it has nothing to tell.
const READING: u32 = 0;

// The steps that are shown of an operation, at most.
const MOST: usize = 64;

// What the chip reads, access by access, in the interrupt of a packet of 4 bytes on OUT 1, in microframe 2 of frame 5.
const ARRIVAL: [u32; 8] = [
    0x4005, // frame_no
    2, // int_fg: a transfer
    1, // mis_st: the SIE is free
    0x41, // int_st: OUT 1, the expected toggle
    4, // rx_len
    READING, // int_fg is written
    0x4005, // frame_no
    1, // mis_st likewise
];

// A driver, and what it is lent at each call: so many bytes of slots, and the record of bus time.
#[derive(Drop)]
struct Board<const LEN: usize> {
    state: State,
    slots: [u8; LEN],
    time: Time,
}

impl<const LEN: usize> Board<LEN> {
    // Before start-up: no buffers, nothing under way.
    fn new() -> Board<LEN> {
        Board {
            state: [0u8; STATE_LEN],
            slots: [0u8; LEN],
            time: [0u16; TIME_LEN],
        }
    }

    fn show(&self, rt: &impl Print, step: Step) -> io::Result<()> {
        let answer = Answer {
            state: &self.state,
            step,
        };
        println!(rt; "{answer}")
    }

    // Shows a call's answer, and the rest of its operation as it goes on with these readings.
    fn run(&mut self, rt: &impl Print, first: Step, readings: &[u32]) -> io::Result<()> {
        self.show(rt, first)?;
        let mut step = first;
        for i in 0..MOST {
            let Step::Asks(_) = step else {
                return Ok(());
            };
            let value = readings.get(i).copied().unwrap_or(READING);
            step = calls::proceeds::proceed(
                &mut self.state,
                &mut self.slots,
                &mut self.time,
                0,
                value,
            );
            self.show(rt, step)?;
        }
        Ok(())
    }

    fn questions(&self, rt: &impl Print, e: u32) -> io::Result<()> {
        let queued = calls::questions::pending(&self.state, e);
        let turned_away = calls::questions::overruns(&self.state, e);
        let stands = if calls::questions::enabled(&self.state, Dir::In, e) {
            "enabled"
        } else {
            "disabled"
        };
        println!(rt; "IN {e}: {queued} queued; OUT {e}: {turned_away} turned away; IN {stands}")
    }

    // Allocates an endpoint with a maximum of 64 bytes and shows what is handed out.
    fn endpoint(&mut self, rt: &impl Print, title: &str, dir: Dir, kind: u8) -> io::Result<()> {
        println!(rt; "\nallocate {title}")?;
        let first = calls::starting::allocate(&mut self.state, dir, kind, 256, 64, 1);
        self.run(rt, first, &[])
    }

    fn enable(&mut self, rt: &impl Print, title: &str, dir: Dir, e: u32) -> io::Result<()> {
        println!(rt; "\nenable {title}")?;
        let first = calls::usbhs_bus_begins::begin_set_enabled(
            &mut self.state,
            &mut self.slots,
            &mut self.time,
            0,
            dir,
            e,
            true,
        );
        self.run(rt, first, &[])
    }

    // On 21 buffers of 64 bytes: an isochronous OUT and IN, a bulk pair and EP0.
    fn start(&mut self, rt: &impl Print) -> io::Result<()> {
        println!(rt; "\nstart-up, 21 buffers of 64 bytes")?;
        let first = calls::starting::start_up(
            &mut self.state,
            &self.slots,
            &mut self.time,
            0,
            64,
            21,
            false,
        );
        self.run(rt, first, &[])?;
        self.endpoint(rt, "an isochronous OUT", Dir::Out, 1)?;
        self.endpoint(rt, "an isochronous IN", Dir::In, 1)?;
        self.endpoint(rt, "a bulk OUT", Dir::Out, 2)?;
        self.endpoint(rt, "a bulk IN", Dir::In, 2)?;
        println!(rt; "\nstart EP0")?;
        let ep0 = calls::starting::start(&mut self.state, 64);
        self.run(rt, ep0, &[])
    }

    fn enable_all(&mut self, rt: &impl Print) -> io::Result<()> {
        println!(rt; "\npull the bus up")?;
        let up = calls::usbhs_bus_begins::begin_bus_enable(&mut self.state);
        self.run(rt, up, &[])?;
        self.enable(rt, "the isochronous OUT", Dir::Out, 1)?;
        self.enable(rt, "the isochronous IN", Dir::In, 1)?;
        self.enable(rt, "the bulk OUT", Dir::Out, 2)?;
        self.enable(rt, "the bulk IN", Dir::In, 2)
    }

    fn time_in_use(&self, rt: &impl Print) -> io::Result<()> {
        let in_use = bus_time::in_use(&self.time);
        println!(rt; "\nbus time in use: {in_use} byte-times of 6,000")
    }

    // The interrupt of a packet that the chip has stored in the first slot of OUT 1.
    fn serve(&mut self, rt: &impl Print) -> io::Result<()> {
        println!(rt; "\nan interrupt: 4 bytes on the isochronous OUT")?;
        let first = calls::begins::begin_interrupt(&mut self.state);
        self.run(rt, first, &ARRIVAL)
    }

    // The packet is read where it lies.
    fn read(&mut self, rt: &impl Print) -> io::Result<()> {
        println!(rt; "\nopen the oldest packet of OUT 1")?;
        let oldest = calls::in_place::open(&mut self.state, &self.slots, 1);
        self.show(rt, oldest)?;
        println!(rt; "\nclose it")?;
        let closed = calls::in_place::close(&mut self.state, 1);
        self.show(rt, closed)?;
        println!(rt; "\nopen the next")?;
        let next = calls::in_place::open(&mut self.state, &self.slots, 1);
        self.show(rt, next)
    }
}

fn before_start_up(rt: &impl Print) -> io::Result<()> {
    let mut board = Board::<0>::new();
    println!(rt; "continue before start-up")?;
    let refused = calls::proceeds::proceed(
        &mut board.state,
        &mut board.slots,
        &mut board.time,
        0,
        READING,
    );
    board.show(rt, refused)?;
    println!(rt; "microframe before start-up")?;
    let first = calls::begins::begin_microframe(&mut board.state);
    board.run(rt, first, &[])?;
    board.questions(rt, 1)
}

fn main(rt: HostRuntime) -> io::Result<()> {
    before_start_up(&rt)?;
    let mut board = Board::<1344>::new();
    board.start(&rt)?;
    board.enable_all(&rt)?;
    board.time_in_use(&rt)?;
    board.slots[..4].copy_from_slice(&[0x11, 0x22, 0x33, 0x44]);
    board.serve(&rt)?;
    board.read(&rt)
}
