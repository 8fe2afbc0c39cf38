// The transfer's flag is cleared, and frame_no behind it is brought by the same call: with no transaction on the bus it
// is what is asked for next.
ghost use Rattle.std.specs.Prelude.{◌≡◌, Bool, true, false, List, ℕ};
ghost use Rattle.regs.specs.Registers.{fits_in};
ghost use Rattle.regs.specs.Status.{token};
ghost use Rattle.regs.specs.declared.Access.TheVariants as Access;
ghost use Rattle.regs.specs.declared.Reg.TheVariants as Reg;
ghost use Rattle.state.specs.State.{view};
ghost use Rattle.script.specs.Script.{run};
ghost use Rattle.script.specs.Handler as script;
ghost use Rattle.script_ops.specs.Concrete.{concrete};
ghost use Rattle.script_ops.specs.Records.{plain_of};
ghost use Rattle.interrupt.specs.Continuations.{finish, after_settle};
ghost use Rattle.interrupt.specs.Points.{meaning};
ghost use Rattle.interrupt.specs.Stands.{AtSite};
ghost use Rattle.interrupt.specs.declared.Point.TheVariants as Point;
ghost use Rattle.interrupt.specs.declared.Next.TheVariants as Next;
ghost use Rattle.machine.specs.Suspended.{slots_fit};
ghost use Rattle.readings.specs.Readings.{lent};
ghost use Rattle.readings.specs.Passing.{FramesAs};

use crate::Passed;
use answer::loads::site_byte;
use interrupt::framing::after_frame_no;
use interrupt::loads::{setup_at, transfer_at};
use interrupt::settle::SettleNext;
use interrupt::{Entry, settle};
use machine::saved::tag;
use machine::stops::slots_fit;
use regs::registers::fits;
use regs::{Dir, Token, status};
use script::Transfer;
use script_ops::rings::is_on;
use state::{EpState, State, load_ep};

// The tag of an interrupt's point, and the number of the one at which the flag is cleared.
const INTERRUPT: u8 = 6;

const RELEASED: u8 = 10;

// Lends an array as a slice, by which its borrower learns how long the list is.
fn sized(_s: &[u8]) {}

// `iso` (mod.rs 718-722).
fn iso_for(st: u8, o: EpState, n: EpState) -> bool
    ensures { result ≡ script.iso_for (token st) (plain_of o) (plain_of n) }
{
    let t = status::token(st);
    match t {
        Token::Out => is_on(o.iso),
        Token::Sof => true,
        Token::In => is_on(n.iso),
        Token::Setup => true,
    }
}

// Of a settled transfer; the interrupt then asks for frame_no.
fn iso_of(s: &State, x: Transfer) -> bool
    ensures { (setup : Bool) (b : List ℕ) →
        meaning (Next.Asks (Access.Read Reg.FrameNo 0) (Point.FrameNo setup x result)) (view s.now) b
        ≡ finish setup (run concrete (after_settle x) (view s.now, b)) }
{
    let ep = status::endpoint(x.st);
    let o = load_ep(s, Dir::Out, ep);
    let n = load_ep(s, Dir::In, ep);
    iso_for(x.st, o, n)
}

// Is the transfer's flag cleared with this call, and would frame_no be taken?
fn may_frame(s: &State, slots: &[u8], frame: u32) -> bool
    ensures { result ≡ true → AtSite 10 s.now
        × (slots_fit (view s.now) slots.now ≡ true) × (fits_in frame 16 ≡ true) }
{
    if tag(s) == INTERRUPT {
        if site_byte(s) == RELEASED {
            if slots_fit(s, slots) {
                return fits(frame, 16);
            }
            return false;
        }
        return false;
    }
    false
}

// The flag is cleared, and frame_no: with a transaction on the bus nothing is changed.
pub fn released(s: &mut State, slots: &mut [u8], frame: u32) -> Passed
    ensures { (i : ℕ) (time : List ℕ) → FramesAs result i frame
        (lent s.old slots.old time) (lent s.new slots.new time) }
{
    if may_frame(s, slots, frame) {
        sized(s);
        let setup = setup_at(s);
        let x = transfer_at(s);
        let n = settle::begin(s, x);
        match n {
            SettleNext::Ends(y) => {
                let e = Entry {
                    setup,
                    x: y,
                    iso: iso_of(s, y),
                    frame: 0,
                };
                Passed::Word(after_frame_no(s, slots, e, frame))
            }
            _ => Passed::No,
        }
    } else {
        Passed::No
    }
}
