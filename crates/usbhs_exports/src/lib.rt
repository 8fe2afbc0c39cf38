// The archive for C (include/usbhs.h): each call of crate usbhs_c under its own name, with its contract.
#![tactic(auto)]

pub mod listed; // listed.rt: endpoints from a configuration descriptor
pub mod together; // together.rt: readings that come in a row, brought by one call

ghost use Rattle.std.specs.Prelude.{◌≡◌, ◌%◌, length};
ghost use Rattle.ring.specs.Copies.{over};
ghost use Rattle.state.specs.State.{view};
ghost use Rattle.state.specs.Wakes.{listed};
ghost use Rattle.script.specs.Statics.{flag};
ghost use Rattle.script.specs.Machine.{begin, continue};
ghost use Rattle.script.specs.Calls.{other, slotted, aside, interrupt, Microframe, Allocate, Start, SetPaced, BusEnable};
ghost use Rattle.script.specs.Calls.{BusDisable, BusPoll, IsStalled, SetStalled, SetEnabled, BeginSetup, PollSetup};
ghost use Rattle.script.specs.Calls.{BeginDataOut, PollDataOut, BeginDataIn, PollDataIn, BeginAccept};
ghost use Rattle.script.specs.Calls.{BeginAcceptSetAddress, PollAccept, BeginReject, Advance, BeginRead, PollRead};
ghost use Rattle.script.specs.Calls.{BeginWrite, PollWrite, Close, Queue};
ghost use Rattle.bus_time.specs.Time.{is_in_use};
ghost use Rattle.machine.specs.Suspended.{config_of};
ghost use Rattle.answer.specs.Questions.{pending_on, overruns_on, enabled_asked};
ghost use Rattle.usbhs_c.specs.Calls.{Answers, AnswersAtOnce, AnswersLent, AnswersInto, AnswersOutOf};
ghost use Rattle.usbhs_c.specs.Calls.{AnswersStart, AnswersCharged, AnswersBeside, AnswersShown, AnswersOpen};
ghost use Rattle.usbhs_c.specs.Calls.{dir_of, flag_of};

use bus_time::Time;
use state::State;

// Start-up on any state, with the buffer's size and count and whether there is a start-of-frame callback.
#[unsafe(no_mangle)]
pub extern "C" fn usbhs_start_up(
    s: &mut State,
    slots: &[u8],
    time: &mut Time,
    driver: u32,
    size: u32,
    count: u32,
    callback: u32,
) -> u64
    ensures { AnswersStart result driver (config_of size count (flag_of callback))
        s.old s.new slots.now time.old time.new }
{
    usbhs_c::usbhs_start_up(s, slots, time, driver, size, count, callback)
}

// An endpoint; its kind counts modulo 4, and an address of 256 or more asks for none.
#[unsafe(no_mangle)]
pub extern "C" fn usbhs_allocate(
    s: &mut State,
    kind: u32,
    address: u32,
    maximum: u32,
    interval: u32,
    dir: u32,
) -> u64
    ensures { Answers result (begin (other (Allocate (dir_of dir) (kind % 4) address maximum interval))) s.old s.new }
{
    usbhs_c::usbhs_allocate(s, kind, address, maximum, interval, dir)
}

// EP0's start, with its maximum.
#[unsafe(no_mangle)]
pub extern "C" fn usbhs_start(s: &mut State, maximum: u32) -> u64
    ensures { Answers result (begin (other (Start maximum))) s.old s.new }
{
    usbhs_c::usbhs_start(s, maximum)
}

// Goes on with the operation under way, with the number brought. An interrupt answers its word by itself, and leaves
// the record of bus time.
#[unsafe(no_mangle)]
pub extern "C" fn usbhs_continue(
    s: &mut State,
    slots: &mut [u8],
    time: &mut Time,
    driver: u32,
    value: u32,
) -> u64
    ensures { AnswersCharged result driver (continue value) s.old
        s.new slots.old slots.new time.old time.new }
{
    usbhs_c::usbhs_continue(s, slots, time, driver, value)
}

// The current microframe number.
#[unsafe(no_mangle)]
pub extern "C" fn usbhs_begin_microframe(s: &mut State) -> u64
    ensures { Answers result (begin (other Microframe)) s.old s.new }
{
    usbhs_c::usbhs_begin_microframe(s)
}

// Whether advance moves the IN endpoint on.
#[unsafe(no_mangle)]
pub extern "C" fn usbhs_set_paced(s: &mut State, endpoint: u32, paced: u32) -> u64
    ensures { AnswersAtOnce result (begin (other (SetPaced endpoint (flag_of paced)))) s.old s.new }
{
    usbhs_c::usbhs_set_paced(s, endpoint, paced)
}

// The paced IN endpoint moved on.
#[unsafe(no_mangle)]
pub extern "C" fn usbhs_begin_advance(s: &mut State, endpoint: u32) -> u64
    ensures { Answers result (begin (other (Advance endpoint))) s.old s.new }
{
    usbhs_c::usbhs_begin_advance(s, endpoint)
}

// The interrupt: while it is under way packets may be opened, closed and queued.
#[unsafe(no_mangle)]
pub extern "C" fn usbhs_begin_interrupt(s: &mut State) -> u64
    ensures { Answers result (begin interrupt) s.old s.new }
{
    usbhs_c::usbhs_begin_interrupt(s)
}

// Pulls the bus up.
#[unsafe(no_mangle)]
pub extern "C" fn usbhs_begin_bus_enable(s: &mut State) -> u64
    ensures { Answers result (begin (other BusEnable)) s.old s.new }
{
    usbhs_c::usbhs_begin_bus_enable(s)
}

// Nothing, as in the Rust.
#[unsafe(no_mangle)]
pub extern "C" fn usbhs_begin_bus_disable(s: &mut State) -> u64
    ensures { Answers result (begin (other BusDisable)) s.old s.new }
{
    usbhs_c::usbhs_begin_bus_disable(s)
}

// The bus's event: 0 not yet, 1 power detected, 2 reset, 3 suspend, 4 resume.
#[unsafe(no_mangle)]
pub extern "C" fn usbhs_begin_bus_poll(s: &mut State) -> u64
    ensures { Answers result (begin (other BusPoll)) s.old s.new }
{
    usbhs_c::usbhs_begin_bus_poll(s)
}

// Whether the endpoint answers STALL: 1 or 0.
#[unsafe(no_mangle)]
pub extern "C" fn usbhs_begin_is_stalled(s: &mut State, endpoint: u32, dir: u32) -> u64
    ensures { Answers result (begin (other (IsStalled (dir_of dir) endpoint))) s.old s.new }
{
    usbhs_c::usbhs_begin_is_stalled(s, endpoint, dir)
}

// The endpoint stalled or restarted.
#[unsafe(no_mangle)]
pub extern "C" fn usbhs_begin_set_stalled(
    s: &mut State,
    endpoint: u32,
    dir: u32,
    stalled: u32,
) -> u64
    ensures { Answers result (begin (other (SetStalled (dir_of dir) endpoint (flag_of stalled)))) s.old s.new }
{
    usbhs_c::usbhs_begin_set_stalled(s, endpoint, dir, stalled)
}

// The endpoint enabled or disabled.
#[unsafe(no_mangle)]
pub extern "C" fn usbhs_begin_set_enabled(
    s: &mut State,
    slots: &mut [u8],
    time: &mut Time,
    driver: u32,
    endpoint: u32,
    dir: u32,
    enabled: u32,
) -> u64
    ensures { AnswersCharged result driver (begin (slotted (SetEnabled (dir_of dir) endpoint (flag_of enabled))))
        s.old s.new slots.old slots.new time.old time.new }
{
    usbhs_c::usbhs_begin_set_enabled(s, slots, time, driver, endpoint, dir, enabled)
}

// A packet awaited from the host, into a slice of that length.
#[unsafe(no_mangle)]
pub extern "C" fn usbhs_begin_read(s: &mut State, endpoint: u32, length: u32) -> u64
    ensures { Answers result (begin (other (BeginRead endpoint length))) s.old s.new }
{
    usbhs_c::usbhs_begin_read(s, endpoint, length)
}

// The packet at the slice's front.
#[unsafe(no_mangle)]
pub extern "C" fn usbhs_poll_read(
    s: &mut State,
    slots: &[u8],
    endpoint: u32,
    slice: &mut [u8],
) -> u64
    ensures { AnswersOutOf result (begin (slotted (PollRead endpoint (length slice.old))))
        s.old s.new slots.now slice.old slice.new }
{
    usbhs_c::usbhs_poll_read(s, slots, endpoint, slice)
}

// A packet for the host.
#[unsafe(no_mangle)]
pub extern "C" fn usbhs_begin_write(
    s: &mut State,
    slots: &mut [u8],
    endpoint: u32,
    bytes: &[u8],
) -> u64
    ensures { AnswersLent result (begin (slotted (BeginWrite endpoint bytes.now)))
        s.old s.new slots.old slots.new }
{
    usbhs_c::usbhs_begin_write(s, slots, endpoint, bytes)
}

// Whether the host has taken it, or, of an isochronous endpoint, whether it is queued.
#[unsafe(no_mangle)]
pub extern "C" fn usbhs_poll_write(
    s: &mut State,
    slots: &mut [u8],
    endpoint: u32,
    bytes: &[u8],
) -> u64
    ensures { AnswersLent result (begin (slotted (PollWrite endpoint bytes.now)))
        s.old s.new slots.old slots.new }
{
    usbhs_c::usbhs_poll_write(s, slots, endpoint, bytes)
}

// Setup begun: its poll waits for a setup packet.
#[unsafe(no_mangle)]
pub extern "C" fn usbhs_begin_setup(s: &mut State) -> u64
    ensures { Answers result (begin (other BeginSetup)) s.old s.new }
{
    usbhs_c::usbhs_begin_setup(s)
}

// The setup packet's 8 bytes.
#[unsafe(no_mangle)]
pub extern "C" fn usbhs_poll_setup(s: &mut State, packet: &mut [u8; 8]) -> u64
    ensures { AnswersInto result (begin (other PollSetup)) s.old s.new packet.old packet.new }
{
    usbhs_c::usbhs_poll_setup(s, packet)
}

// A packet of data awaited from the host, into a slice of that length; the first of its stage or a later one.
#[unsafe(no_mangle)]
pub extern "C" fn usbhs_begin_data_out(s: &mut State, length: u32, first: u32) -> u64
    ensures { Answers result (begin (other (BeginDataOut length (flag_of first)))) s.old s.new }
{
    usbhs_c::usbhs_begin_data_out(s, length, first)
}

// The packet at the slice's front.
#[unsafe(no_mangle)]
pub extern "C" fn usbhs_poll_data_out(s: &mut State, slots: &[u8], slice: &mut [u8]) -> u64
    ensures { AnswersOutOf result (begin (slotted (PollDataOut (length slice.old))))
        s.old s.new slots.now slice.old slice.new }
{
    usbhs_c::usbhs_poll_data_out(s, slots, slice)
}

// A packet of data for the host, with whether it is its stage's first and its last.
#[unsafe(no_mangle)]
pub extern "C" fn usbhs_begin_data_in(
    s: &mut State,
    slots: &mut [u8],
    bytes: &[u8],
    first: u32,
    last: u32,
) -> u64
    ensures { AnswersLent result (begin (slotted (BeginDataIn bytes.now (flag_of first) (flag_of last))))
        s.old s.new slots.old slots.new }
{
    usbhs_c::usbhs_begin_data_in(s, slots, bytes, first, last)
}

// Whether the host has taken it.
#[unsafe(no_mangle)]
pub extern "C" fn usbhs_poll_data_in(s: &mut State) -> u64
    ensures { Answers result (begin (other PollDataIn)) s.old s.new }
{
    usbhs_c::usbhs_poll_data_in(s)
}

// The request accepted.
#[unsafe(no_mangle)]
pub extern "C" fn usbhs_begin_accept(s: &mut State) -> u64
    ensures { Answers result (begin (other BeginAccept)) s.old s.new }
{
    usbhs_c::usbhs_begin_accept(s)
}

// The same, and then the address modulo 128 taken.
#[unsafe(no_mangle)]
pub extern "C" fn usbhs_begin_accept_set_address(s: &mut State, address: u32) -> u64
    ensures { Answers result (begin (other (BeginAcceptSetAddress address))) s.old s.new }
{
    usbhs_c::usbhs_begin_accept_set_address(s, address)
}

// Whether the status stage is over; it hands out the address's write.
#[unsafe(no_mangle)]
pub extern "C" fn usbhs_poll_accept(s: &mut State) -> u64
    ensures { Answers result (begin (other PollAccept)) s.old s.new }
{
    usbhs_c::usbhs_poll_accept(s)
}

// The request refused: EP0 stalled.
#[unsafe(no_mangle)]
pub extern "C" fn usbhs_begin_reject(s: &mut State) -> u64
    ensures { Answers result (begin (other BeginReject)) s.old s.new }
{
    usbhs_c::usbhs_begin_reject(s)
}

// The isochronous OUT endpoint's oldest packet shown in its slot, with its stamp.
#[unsafe(no_mangle)]
pub extern "C" fn usbhs_open(s: &mut State, slots: &[u8], endpoint: u32, stamp: &mut u16) -> u64
    ensures { AnswersOpen result endpoint s.old s.new slots.now stamp.old stamp.new }
{
    usbhs_c::usbhs_open(s, slots, endpoint, stamp)
}

// Its slot given back.
#[unsafe(no_mangle)]
pub extern "C" fn usbhs_close(s: &mut State, endpoint: u32) -> u64
    ensures { AnswersBeside result (begin (aside (Close endpoint))) s.old s.new }
{
    usbhs_c::usbhs_close(s, endpoint)
}

// A packet queued on the isochronous IN endpoint.
#[unsafe(no_mangle)]
pub extern "C" fn usbhs_queue(s: &mut State, slots: &mut [u8], endpoint: u32, bytes: &[u8]) -> u64
    ensures { AnswersShown result (begin (aside (Queue endpoint bytes.now)))
        s.old s.new slots.old slots.new }
{
    usbhs_c::usbhs_queue(s, slots, endpoint, bytes)
}

// The wake-ups of the operation that ended last, in their order: their codes at the room's start, and how many.
#[unsafe(no_mangle)]
pub extern "C" fn usbhs_woken(s: &State, room: &mut [u8; 64]) -> u32
    ensures value { result ≡ length (listed (view s.now).wakes) }
    ensures room_after { room.new ≡ over (listed (view s.now).wakes) room.old }
{
    usbhs_c::usbhs_woken(s, room)
}

// The bus time in use, in byte-times of a microframe.
#[unsafe(no_mangle)]
pub extern "C" fn usbhs_time_in_use(time: &Time) -> u32
    ensures { result ≡ is_in_use time.now }
{
    usbhs_c::usbhs_time_in_use(time)
}

// The packets queued on the IN endpoint and not yet taken by the host.
#[unsafe(no_mangle)]
pub extern "C" fn usbhs_pending(s: &State, endpoint: u32) -> u32
    ensures { result ≡ pending_on (view s.now) endpoint }
{
    usbhs_c::usbhs_pending(s, endpoint)
}

// The packets of the OUT endpoint that were turned away.
#[unsafe(no_mangle)]
pub extern "C" fn usbhs_overruns(s: &State, endpoint: u32) -> u32
    ensures { result ≡ overruns_on (view s.now) endpoint }
{
    usbhs_c::usbhs_overruns(s, endpoint)
}

// Whether the host enabled the endpoint: 1 or 0.
#[unsafe(no_mangle)]
pub extern "C" fn usbhs_enabled(s: &State, endpoint: u32, dir: u32) -> u32
    ensures { result ≡ flag (enabled_asked (view s.now) (dir_of dir) endpoint) }
{
    usbhs_c::usbhs_enabled(s, endpoint, dir)
}
