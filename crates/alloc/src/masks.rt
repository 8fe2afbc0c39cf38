// The allocator's sets of endpoint numbers, each a 16-bit mask.
ghost use Rattle.std.specs.Prelude.{◌≡◌, ◌<◌, true};
ghost use Rattle.bits.specs.Bit.{bit_is_set, with_bit};
ghost use Rattle.alloc.specs.Alloc.{taken_ins, nums_of, is_free, is_out, add_to, taken, with_allocated, with_next};

use regs::Dir;
use state::Allocator;

fn has(m: u16, e: u8) -> bool
    requires { e < 16 }
    ensures { result ≡ bit_is_set m e }
{
    bits::mask_has(m, e)
}

fn with(m: u16, e: u8) -> u16
    requires { e < 16 }
    ensures { result ≡ with_bit m e true }
{
    bits::mask_with(m, e, true)
}

// The numbers taken in a direction.
fn taken_in(a: Allocator, dir: Dir) -> u16
    ensures { result ≡ taken_ins a dir }
{
    match dir {
        Dir::Out => a.taken_out,
        Dir::In => a.taken_in,
    }
}

// The numbers of a sort, in either direction.
fn nums(a: Allocator, iso: bool) -> u16
    ensures { result ≡ nums_of a iso }
{
    if iso { a.iso_nums } else { a.other_nums }
}

// Not taken in this direction, nor by the other sort in either: a PING to a bulk OUT whose number is isochronous on the
// IN side hangs the SIE.
pub fn is_free(a: Allocator, iso: bool, dir: Dir, e: u8) -> bool
    requires { e < 16 }
    ensures { result ≡ is_free a iso dir e }
{
    if has(taken_in(a, dir), e) {
        return false;
    }
    !has(nums(a, !iso), e)
}

fn is_out(dir: Dir) -> bool
    ensures { result ≡ is_out dir }
{
    match dir {
        Dir::Out => true,
        Dir::In => false,
    }
}

// The set with e, where it is the one that is meant.
fn add_to(here: bool, m: u16, e: u8) -> u16
    requires { e < 16 }
    ensures { result ≡ add_to here m e }
{
    if here { with(m, e) } else { m }
}

// The number taken in its direction and for its sort.
pub fn taken(mut a: Allocator, iso: bool, dir: Dir, e: u8) -> Allocator
    requires { e < 16 }
    ensures { result ≡ taken a iso dir e }
{
    let out = is_out(dir);
    a.taken_out = add_to(out, a.taken_out, e);
    a.taken_in = add_to(!out, a.taken_in, e);
    a.iso_nums = add_to(iso, a.iso_nums, e);
    a.other_nums = add_to(!iso, a.other_nums, e);
    a
}

// The number allocated in its direction.
pub fn with_allocated(mut a: Allocator, dir: Dir, e: u8) -> Allocator
    requires { e < 16 }
    ensures { result ≡ with_allocated a dir e }
{
    let out = is_out(dir);
    a.allocated_out = add_to(out, a.allocated_out, e);
    a.allocated_in = add_to(!out, a.allocated_in, e);
    a
}

// The buffers before `next` used.
pub fn with_next(mut a: Allocator, next: u16) -> Allocator
    ensures { result ≡ with_next a next }
{
    a.next = next;
    a
}
