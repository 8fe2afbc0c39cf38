// Bus time as a shared limit (document 02, request Seven): the record that up to four drivers share. It has a number
// for each driver, endpoint and direction: the byte-times of a microframe that the endpoint is charged, 0 where it is
// not. All 0 is uncharged; any numbers are safe.
#![tactic(auto)]

ghost use Rattle.std.specs.Prelude.{◌≡◌, ◌≤◌, ◌<◌, set};
ghost use Rattle.bus_time.specs.Time.{charge_of, entry_of, is_in_use, passes, entry_kept, keep_of};

use regs::Dir;

// Four drivers with 16 endpoints in two directions.
pub const TIME_LEN: usize = 128;

// The numbers that are the record.
pub type Time = [u16; TIME_LEN];

// The byte-times of a microframe that periodic transfers may use (USB 2.0, chapter 5).
const PERIODIC: u32 = 6000;

const ISOCHRONOUS: u8 = 1;

const INTERRUPT: u8 = 3;

// What an endpoint of a kind is charged once a microframe.
pub fn charge_of(kind: u8, maximum: u16) -> u32
    ensures value { result ≡ charge_of kind maximum }
    ensures upper_bound { result ≤ 65590 }
{
    if kind == ISOCHRONOUS {
        return maximum as u32 + 38;
    }
    if kind == INTERRUPT {
        return maximum as u32 + 55;
    }
    0
}

// The place in the record of a driver's endpoint: the driver's number counts modulo 4, the endpoint's modulo 16.
pub fn entry(driver: u32, dir: Dir, e: u32) -> usize
    ensures value { result ≡ entry_of driver dir e }
    ensures upper_bound { result < 128 }
{
    match dir {
        Dir::In => (driver % 4) as usize * 32 + (e % 16) as usize,
        Dir::Out => (driver % 4) as usize * 32 + (16 + (e % 16) as usize),
    }
}

fn wide(charge: u16) -> u32
    ensures value { result ≡ charge }
    ensures upper_bound { result ≤ 65535 }
{
    charge as u32
}

// The bus time in use: the sum of all endpoints' charges.
pub fn in_use(time: &Time) -> u32
    ensures value { result ≡ is_in_use time.now }
    ensures upper_bound { result ≤ 8388480 }
{
    let mut sum: u32 = 0;
    let mut k: u32 = 0; // half as wide as an index
    while k < 128 {
        let at = k as usize;
        sum += wide(time[at]);
        k += 1;
    }
    sum
}

// Would the charge at this place pass the limit? (row 19)
pub fn passes(time: &Time, at: usize, charge: u32) -> bool
    requires at_bound { at < 128 }
    requires charge_bound { charge ≤ 65590 }
    ensures { result ≡ passes time.now at charge }
{
    PERIODIC + wide(time[at]) < in_use(time) + charge
}

// The charge at this place.
pub fn charge(time: &mut Time, at: usize, charge: u32)
    requires at_bound { at < 128 }
    requires charge_bound { charge < 65536 }
    ensures { time.new ≡ set time.old at charge }
{
    time[at] = charge as u16;
}

fn entry_kept(charge: u16, config: u32, bit: u8) -> u16
    requires { bit < 32 }
    ensures { result ≡ entry_kept config bit charge }
{
    if bits::is_set(config, bit) {
        return charge;
    }
    0
}

// Of the driver's charges those stay whose bit is set in the word of ep_config.
pub fn keep(time: &mut Time, driver: u32, config: u32)
    ensures { time.new ≡ keep_of driver config time.old }
{
    let first = (driver % 4) as usize * 32;
    let mut bit: u8 = 0;
    while bit < 32 {
        let at = first + bit as usize;
        time[at] = entry_kept(time[at], config, bit);
        bit += 1;
    }
}
