// What a call answers, as a person reads it.
use crate::accesses::Shown;
use answer::Step;
use state::{State, woken_at};
use std::{fmt, io};

// Whose task is woken.
#[derive(Clone, Copy)]
struct Task(u8);

impl fmt::Display for Task {
    fn fmt<W: fmt::Write>(&self, f: &mut fmt::Formatter<W>) -> fmt::Result {
        match self.0 {
            code @ 0..=15 => write!(f, "IN {code}"),
            code @ 16..=31 => write!(f, "OUT {}", code - 16),
            _ => f.write_str("bus"),
        }
    }
}

// The first so many of the state's wake-ups, in their order.
#[derive(Clone, Copy)]
struct Wakes<'a>(&'a State, u8);

impl<'a> fmt::Display for Wakes<'a> {
    fn fmt<W: fmt::Write>(&self, f: &mut fmt::Formatter<W>) -> fmt::Result {
        let mut comma = "";
        for i in 0..self.1 {
            write!(f, "{comma}{}", Task(woken_at(self.0, i)))?;
            comma = ", ";
        }
        f.write_str(if self.1 == 0 { "none" } else { "" })
    }
}

// The rows of "What stops a call": up to the allocation's, then those of packets and continue, then EP0's.
#[derive(Clone, Copy)]
struct Row(u8);

impl fmt::Display for Row {
    fn fmt<W: fmt::Write>(&self, f: &mut fmt::Formatter<W>) -> fmt::Result {
        f.write_str(match self.0 {
            1 => "the slots' length is not count times size",
            2 => "no such buffers",
            3 => "an operation is under way",
            4 => "not at this stage",
            5 => "no such endpoint",
            6 => "the maximum is above the buffer size",
            7 => "no such endpoint number is free",
            8 => "the buffers run out",
            9 => "the endpoint is disabled, or a setup waits",
            10 => "the length does not fit",
            11 => "not isochronous",
            12 => "no packet is queued",
            13 => "two packets wait",
            14 => "no packet is open",
            15 => "nothing is under way",
            16 => "the reading has bits above its width",
            19 => "the bus time would pass 6,000 byte-times",
            22 => "the maximum of EP0 is 64",
            _ => "",
        })
    }
}

// A call's answer, of a driver whose state is this one after the call.
#[derive(Clone, Copy)]
pub struct Answer<'a> {
    pub state: &'a State,
    pub step: Step,
}

impl<'a> fmt::Display for Answer<'a> {
    fn fmt<W: fmt::Write>(&self, f: &mut fmt::Formatter<W>) -> fmt::Result {
        match self.step {
            Step::Refused(n) => write!(f, "refused, {n}: {}", Row(n)),
            Step::Asks(q) => write!(f, "{}", Shown(q)),
            Step::Ends(n, k) => write!(f, "end: result {n}, wakes {}", Wakes(self.state, k)),
            Step::NotYet => f.write_str("not yet"),
            Step::Done(n) => write!(f, "done: bytes {n}"),
            Step::Setup(low, high) => write!(f, "setup: words {low:#010x}, {high:#010x}"),
            Step::Shown(at, n, stamp) => {
                write!(f, "shown: slot byte {at}, bytes {n}, microframe {stamp}")
            }
        }
    }
}

pub fn show(rt: &impl Print, s: &State, step: Step) -> io::Result<()> {
    println!(rt; "{}", Answer { state: s, step })
}
