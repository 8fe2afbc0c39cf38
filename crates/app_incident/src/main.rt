// The incident, where only the port can be had: the recorded list (standard input, as bytes) is made on the port,
// and what the Rust answered and left in the slots is taken from the record. Both exports go through the card;
// flat-topped samples are counted in what comes back.
#![tactic(auto)]

ghost use Rattle.std.specs.Prelude.{◌≤◌, IfOk};

mod list; // list.rt: the recorded list
mod packets; // packets.rt: packets on the card and back

use bus_time::{TIME_LEN, Time};
use list::{Entry, LIST_LEN, SLOTS_LEN, number};
use packets::{CARD_LEN, Counts};
use state::{STATE_LEN, State};
use std::io;
use std::io::Read;

// The number of a store in the list, and the answer of what is no call.
const STORE: u32 = 34;

const NO_ANSWER: u64 = 15;

// The entries that are made of a list, at most.
const MOST: u32 = 4096;

// The reading with which an interrupt of the port begins; the list does not have it.
const FRAME: u32 = 0;

// Makes an entry's call on the port; those that the incident does not have are left out.
fn made(
    list: &[u8; LIST_LEN],
    at: u32,
    code: u32,
    s: &mut State,
    slots: &mut [u8; SLOTS_LEN],
    time: &mut Time,
) -> u64 {
    let a = number(list, at, 4);
    let b = number(list, at, 8);
    let c = number(list, at, 12);
    match code {
        0 => usbhs_c::usbhs_start_up(s, slots, time, 0, a, b, c),
        1 => usbhs_c::usbhs_continue(s, slots, time, 0, a),
        2 => usbhs_c::usbhs_allocate(s, a, b, c, number(list, at, 16), number(list, at, 20)),
        3 => usbhs_c::usbhs_start(s, a),
        4 => {
            usbhs_c::usbhs_begin_interrupt(s);
            usbhs_c::usbhs_continue(s, slots, time, 0, FRAME)
        }
        5 => usbhs_c::usbhs_begin_bus_poll(s),
        6 => usbhs_c::usbhs_begin_bus_enable(s),
        8 => usbhs_c::usbhs_begin_set_enabled(s, slots, time, 0, a, b, c),
        28 => {
            let mut stamp: u16 = 0;
            usbhs_c::usbhs_open(s, slots, a, &mut stamp)
        }
        29 => usbhs_c::usbhs_close(s, a),
        32 => usbhs_c::usbhs_overruns(s, a) as u64,
        _ => NO_ANSWER,
    }
}

// One side's slots, and the card that its packets go to.
#[derive(Drop)]
struct Side {
    slots: [u8; SLOTS_LEN],
    writer: [u32; 4],
    block: [u8; 512],
    card: [u8; CARD_LEN],
}

impl Side {
    fn new() -> Side {
        let mut writer = [0u32; 4];
        survey_c::usbhs_card_new(&mut writer);
        Side {
            slots: [0u8; SLOTS_LEN],
            writer,
            block: [0u8; 512],
            card: [0u8; CARD_LEN],
        }
    }

    // An open packet goes from its slot to the card.
    fn keep(&mut self, word: u64) {
        if word % 16 == 8 {
            let mut packet = [0u8; 1024];
            let len = (word / 256 % 65536) as u16;
            ring::marks::copy_out(&self.slots, (word / 0x100000000) as u32, &mut packet, len);
            packets::put_front(
                &mut self.writer,
                &mut self.block,
                &mut self.card,
                &packet,
                len,
            );
        }
    }

    // The card is finished and read back.
    fn export(&mut self) -> Counts {
        let len = packets::finish(&self.writer, &mut self.block, &mut self.card);
        packets::read_back(&self.card, len)
    }
}

// An answer that is not the recorded one.
fn told(rt: &impl Print, answer: u32, own: u64, recorded: u64) -> io::Result<()> {
    let shown = recorded / 256 % 65536;
    let here = own / 256 % 65536;
    println!(rt; "answer {answer}: the Rust shows {shown} bytes, the port {here}")
}

fn summed(rt: &impl Print, title: &str, c: Counts) -> io::Result<()> {
    let Counts {
        packets,
        samples,
        flat,
    } = c;
    println!(rt; "{title}{packets} packets, {samples} samples, {flat} flat-topped")
}

// The samples that the chip stores.
fn send(stores: &mut Counts, list: &[u8; LIST_LEN], e: Entry) {
    let mut packet = [0u8; 1024];
    list::copy(list, e.data, e.data_len, &mut packet, 0);
    stores.count(&packet, e.data_len);
}

fn run(rt: &impl Print, list: &[u8; LIST_LEN], len: u32) -> io::Result<()> {
    let mut s = [0u8; STATE_LEN];
    let mut time = [0u16; TIME_LEN];
    let mut port = Side::new();
    let mut rust = Side::new();
    let mut stores = Counts::default();
    let mut answers: u32 = 0;
    let mut differing: u32 = 0;
    let mut at: u32 = 0;
    for _ in 0..MOST {
        if at < len {
            let e = list::entry_at(list, at);
            if e.code == STORE {
                let to = number(list, at, 4);
                list::store(list, e.data, e.data_len, &mut port.slots, to);
                list::store(list, e.data, e.data_len, &mut rust.slots, to);
                send(&mut stores, list, e);
            } else {
                for _ in 0..e.times {
                    let own = made(list, at, e.code, &mut s, &mut port.slots, &mut time);
                    if own != NO_ANSWER {
                        answers = answers.wrapping_add(1);
                        if own != e.answer {
                            differing = differing.wrapping_add(1);
                            told(rt, answers, own, e.answer)?;
                        }
                        port.keep(own);
                        rust.keep(e.answer);
                    }
                }
            }
            at = list::changed(list, e, &mut rust.slots);
        }
    }
    println!(rt; "{answers} answers, {differing} not the Rust's")?;
    summed(rt, "sent:             ", stores)?;
    summed(rt, "the Rust exports: ", rust.export())?;
    summed(rt, "the port exports: ", port.export())
}

// The recorded list: so many bytes of it, and behind them zeros.
fn recorded(rt: &(impl Input + AllocGlobal), list: &mut [u8; LIST_LEN]) -> io::Result<u32>
    ensures { IfOk result (λ n. n ≤ 65536) }
{
    let mut bytes = Vec::new(rt.alloc());
    rt.reader().take(LIST_LEN as u64).read_to_end(&mut bytes)?;
    let n = bytes.len().min(LIST_LEN);
    list[..n].copy_from_slice(&bytes[..n]);
    Ok(n as u32)
}

fn main(rt: HostRuntime) -> io::Result<()> {
    let mut list = [0u8; LIST_LEN];
    let len = recorded(&rt, &mut list)?;
    run(&rt, &list, len)
}
