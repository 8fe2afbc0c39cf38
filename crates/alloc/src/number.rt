// The endpoint number of an allocation, its sort and how many buffers it needs.
ghost use Rattle.std.specs.Prelude.{◌≡◌, ◌+◌, ◌<◌};
ghost use Rattle.alloc.specs.Alloc.{is_iso, flag, dir_bit, slots_of, free_of, asked_of, lowest_of, number_of};

use crate::Found;
use crate::masks::is_free;
use regs::Dir;
use state::Allocator;

const MAX_NR_EP: u8 = 16;

const ISO_OUT_SLOTS: u8 = 16;

const ISO_IN_SLOTS: u8 = 2;

// Kinds are taken modulo 4: 0 control, 1 isochronous, 2 bulk, 3 interrupt.
pub fn is_iso(kind: u8) -> bool
    ensures { result ≡ is_iso kind }
{
    kind % 4 == 1
}

// A flag as a byte: 1 for true, 0 for false.
pub fn flag(b: bool) -> u8
    ensures { result ≡ flag b }
{
    if b { 1 } else { 0 }
}

// How many slots an endpoint takes: 16 for an isochronous OUT, 2 for an isochronous IN, else 1.
pub fn slots(iso: bool, dir: Dir) -> u8
    ensures { result ≡ slots_of iso dir }
{
    if iso {
        match dir {
            Dir::Out => ISO_OUT_SLOTS,
            Dir::In => ISO_IN_SLOTS,
        }
    } else {
        1
    }
}

// The first buffer after n from `next` on.
pub fn end(next: u16, n: u8) -> u32
    ensures { result ≡ next + n }
{
    (next as u32) + (n as u32)
}

fn dir_bit(dir: Dir) -> u32
    ensures { result ≡ dir_bit dir }
{
    match dir {
        Dir::Out => 0,
        Dir::In => 1,
    }
}

// A number, where it is free.
fn free_number(a: Allocator, iso: bool, dir: Dir, e: u8) -> Found
    requires { e < 16 }
    ensures { result ≡ free_of a iso dir e }
{
    if is_free(a, iso, dir, e) {
        return Found::Number(e);
    }
    Found::Nothing
}

// The number of the address that is asked for.
fn asked(a: Allocator, iso: bool, address: u32, dir: Dir) -> Found
    ensures { result ≡ asked_of a iso address dir }
{
    if address >> 7 != dir_bit(dir) {
        return Found::Nothing;
    }
    let index = address & 0x7F;
    if index == 0 {
        return Found::Nothing;
    }
    if (MAX_NR_EP as u32) <= index {
        return Found::Nothing;
    }
    let e = index as u8;
    free_number(a, iso, dir, e)
}

// The lowest free number; endpoint 0 is the control pipe's.
fn lowest(a: Allocator, iso: bool, dir: Dir) -> Found
    ensures { result ≡ lowest_of a iso dir 15 1 }
{
    let mut e: u8 = 1;
    while e < MAX_NR_EP {
        if is_free(a, iso, dir, e) {
            return Found::Number(e);
        }
        e += 1;
    }
    Found::Nothing
}

// The endpoint number that an allocation gets: the one asked for if it is free, else the lowest free one.
pub fn find(a: Allocator, iso: bool, address: u32, dir: Dir) -> Found
    ensures { result ≡ number_of a iso address dir }
{
    if address < 256 {
        asked(a, iso, address, dir)
    } else {
        lowest(a, iso, dir)
    }
}
