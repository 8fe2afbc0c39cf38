// Readings that follow each other, brought by one call, exported.
ghost use Rattle.readings.specs.Readings.{lent};
ghost use Rattle.usbhs_c.specs.Readings.{AnswersInterrupt, AnswersTransfer, AnswersInterruptTransfer};
ghost use Rattle.usbhs_c.specs.Readings.{AnswersReleased, AnswersLooks};

use bus_time::Time;
use state::State;

// The interrupt's begin with its first two readings, frame_no and int_fg.
#[unsafe(no_mangle)]
pub extern "C" fn usbhs_interrupt(
    s: &mut State,
    slots: &mut [u8],
    time: &mut Time,
    driver: u32,
    frame: u32,
    flags: u32,
) -> u64
    ensures { AnswersInterrupt result driver frame flags
        (lent s.old slots.old time.old)
        (lent s.new slots.new time.new) }
{
    usbhs_c::together::usbhs_interrupt(s, slots, time, driver, frame, flags)
}

// A continue with a transfer's three readings, mis_st, int_st and rx_len.
#[unsafe(no_mangle)]
pub extern "C" fn usbhs_continue_transfer(
    s: &mut State,
    slots: &mut [u8],
    time: &mut Time,
    driver: u32,
    mis: u32,
    st: u32,
    len: u32,
) -> u64
    ensures { AnswersTransfer result driver mis st len
        (lent s.old slots.old time.old)
        (lent s.new slots.new time.new) }
{
    usbhs_c::together::usbhs_continue_transfer(s, slots, time, driver, mis, st, len)
}

// The interrupt's begin with five readings, frame_no, int_fg and a transfer's three.
#[unsafe(no_mangle)]
pub extern "C" fn usbhs_interrupt_transfer(
    s: &mut State,
    slots: &mut [u8],
    time: &mut Time,
    driver: u32,
    frame: u32,
    flags: u32,
    mis: u32,
    st: u32,
    len: u32,
) -> u64
    ensures { AnswersInterruptTransfer result driver frame flags mis st len
        (lent s.old slots.old time.old)
        (lent s.new slots.new time.new) }
{
    usbhs_c::together::usbhs_interrupt_transfer(s, slots, time, driver, frame, flags, mis, st, len)
}

// A continue after the write that clears the transfer's flag, and frame_no.
#[unsafe(no_mangle)]
pub extern "C" fn usbhs_continue_released(
    s: &mut State,
    slots: &mut [u8],
    time: &mut Time,
    driver: u32,
    frame: u32,
) -> u64
    ensures { AnswersReleased result driver frame
        (lent s.old slots.old time.old)
        (lent s.new slots.new time.new) }
{
    usbhs_c::together::usbhs_continue_released(s, slots, time, driver, frame)
}

// So many looks at mis_st that read `busy`, and one more that read `last`: as many continues and one.
#[unsafe(no_mangle)]
pub extern "C" fn usbhs_continue_looks(
    s: &mut State,
    slots: &mut [u8],
    time: &mut Time,
    driver: u32,
    looks: u32,
    busy: u32,
    last: u32,
) -> u64
    ensures { AnswersLooks result driver looks busy last
        (lent s.old slots.old time.old)
        (lent s.new slots.new time.new) }
{
    usbhs_c::together::usbhs_continue_looks(s, slots, time, driver, looks, busy, last)
}
