ghost use Rattle.std.specs.Prelude.{◌≡◌, true, false};
ghost use Rattle.regs.specs.Registers.{fits_in};
ghost use Rattle.regs.specs.ControlWord.{is_data1};
ghost use Rattle.script.specs.Script.{run};
ghost use Rattle.script.specs.Handler as script;
ghost use Rattle.script.specs.Statics.{flag};
ghost use Rattle.script_ops.specs.Means.{Means, MeansFrom};
ghost use Rattle.script_ops.specs.Concrete.{concrete};
ghost use Rattle.script_ops.specs.Records.{plain_of};
ghost use Rattle.interrupt.specs.Toggled.{after_word, denote, meaning, Linked, fits_at};

use crate::wait::{LOOKS, byte, over};
use regs::registers::{ctrl_of, fits};
use regs::{Access, Dir, Reg, control_word};
use script_ops::rings::is_on;
use state::{EpState, State, load_ep, store_ep};

// Where it stands.
#[derive(Clone, Copy)]
pub enum Toggled {
    Look(u16), // mis_st is read; how many looks may follow
    Word, // the control word is read
    AckRead, // it is read to answer ACK
    Acked, // it answers ACK
}

// The next access, or whether a packet went through.
#[derive(Clone, Copy)]
pub enum ToggledNext {
    Asks(Access, Toggled),
    Ends(bool),
}

// `toggled` (mod.rs 433-459): the wait begins.
pub fn begin(dir: Dir, ep: u8) -> ToggledNext
    ensures { Means (meaning dir ep result) (Linked result) (run concrete (script.toggled {i = true} dir ep)) }
{
    ToggledNext::Asks(Access::Read(Reg::MisSt, 0), Toggled::Look(LOOKS))
}

fn after_look(dir: Dir, ep: u8, n: u16, v: u32) -> ToggledNext
    requires { fits_in v 8 ≡ true }
    ensures { Means (meaning dir ep result) (Linked result) (denote dir ep (Toggled.Look n) v) }
{
    if over(byte(v), n) {
        return ToggledNext::Asks(Access::Read(ctrl_of(dir), ep), Toggled::Word);
    }
    ToggledNext::Asks(Access::Read(Reg::MisSt, 0), Toggled::Look(n - 1))
}

// DATA1, as a flag.
fn data1(word: u8) -> u16
    ensures { result ≡ flag (is_data1 word) }
{
    if control_word::is_data1(word) {
        return 1;
    }
    0
}

// The chip's toggle is still the one recorded.
fn repeated(r: EpState, word: u8) -> bool
    ensures { result ≡ script.repeated (plain_of r) word }
{
    r.tog == data1(word)
}

// No new packet: a request still waiting gets its endpoint back. Or the packet's toggle is recorded.
fn after_word(s: &mut State, dir: Dir, ep: u8, v: u32) -> ToggledNext
    requires { fits_in v 8 ≡ true }
    ensures { MeansFrom (meaning dir ep result) (Linked result) (run concrete (after_word dir ep v)) s.old
        s.new }
{
    let word = byte(v);
    let mut r = load_ep(s, dir, ep);
    if repeated(r, word) {
        if is_on(r.armed) {
            return ToggledNext::Asks(Access::Read(ctrl_of(dir), ep), Toggled::AckRead);
        }
        return ToggledNext::Ends(false);
    }
    r.tog = data1(word);
    r.armed = 0;
    store_ep(s, dir, ep, r);
    ToggledNext::Ends(true)
}

fn after_ack_read(dir: Dir, ep: u8, v: u32) -> ToggledNext
    requires { fits_in v 8 ≡ true }
    ensures { Means (meaning dir ep result) (Linked result) (denote dir ep Toggled.AckRead v) }
{
    let word = control_word::ack(byte(v));
    ToggledNext::Asks(Access::Write(ctrl_of(dir), ep, word as u32), Toggled::Acked)
}

pub fn resume(s: &mut State, dir: Dir, ep: u8, p: Toggled, v: u32) -> ToggledNext
    requires { fits_at p v ≡ true }
    ensures { MeansFrom (meaning dir ep result) (Linked result) (denote dir ep p v) s.old s.new }
{
    match p {
        Toggled::Look(n) => after_look(dir, ep, n, v),
        Toggled::Word => after_word(s, dir, ep, v),
        Toggled::AckRead => after_ack_read(dir, ep, v),
        Toggled::Acked => ToggledNext::Ends(false),
    }
}

pub fn fits_at(p: Toggled, v: u32) -> bool
    ensures { result ≡ fits_at p v }
{
    match p {
        Toggled::Look(_n) => fits(v, 2),
        Toggled::Word => fits(v, 8),
        Toggled::AckRead => fits(v, 8),
        Toggled::Acked => true,
    }
}
