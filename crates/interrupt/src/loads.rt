// What a point of the interrupt has: each part is loaded alone from the saved record's bytes. Any bytes are a point.
ghost use Rattle.std.specs.Prelude.{◌≡◌};
ghost use Rattle.state.specs.State.{saved};
ghost use Rattle.script.specs.Statics.{is_on};
ghost use Rattle.interrupt.specs.Codec.{dir_of, transfer_of, entry_of, nak_of, settle_of, toggled_of, complete_of};
ghost use Rattle.interrupt.specs.Codec.{sof_of, late_of, check_of};

use crate::Entry;
use crate::codec::{check_of, complete_of, dir_of, late_of, nak_of, settle_of, sof_of, toggled_of};
use crate::nak::Nak;
use crate::settle::Settle;
use crate::toggled::Toggled;
use answer::loads::{
    busy_byte, ep_byte, eps_word, flag_byte, frame_word, late_byte, len_ok_byte, len_word, n_word,
    now_byte, st_byte, sub_byte,
};
use isochronous::complete::Complete;
use isochronous::late::Late;
use isochronous::out::Check;
use isochronous::sof::Sof;
use regs::Dir;
use script::Transfer;
use script_ops::rings::is_on;
use state::State;

// Is the setup flag set?
pub fn setup_at(s: &State) -> bool
    ensures { result ≡ is_on (saved s.now).flag }
{
    is_on(flag_byte(s))
}

// Was a transaction on the bus?
pub fn busy_at(s: &State) -> bool
    ensures { result ≡ is_on (saved s.now).busy }
{
    is_on(busy_byte(s))
}

pub fn dir_at(s: &State) -> Dir
    ensures { result ≡ dir_of (saved s.now).ep }
{
    dir_of(ep_byte(s))
}

pub fn transfer_at(s: &State) -> Transfer
    ensures { result ≡ transfer_of (saved s.now) }
{
    Transfer {
        busy: is_on(busy_byte(s)),
        st: st_byte(s),
        len: len_word(s),
        late: is_on(late_byte(s)),
        len_ok: is_on(len_ok_byte(s)),
    }
}

// What the entry has found out: of a point without a frame, 0 is saved for it.
pub fn entry_at(s: &State) -> Entry
    ensures { result ≡ entry_of (saved s.now) }
{
    Entry {
        setup: setup_at(s),
        x: transfer_at(s),
        iso: is_on(now_byte(s)),
        frame: frame_word(s),
    }
}

pub fn nak_at(s: &State) -> Nak
    ensures { result ≡ nak_of (saved s.now).sub }
{
    nak_of(sub_byte(s))
}

pub fn settle_at(s: &State) -> Settle
    ensures { result ≡ settle_of (saved s.now).sub (saved s.now).now
        (saved s.now).n }
{
    settle_of(sub_byte(s), now_byte(s), n_word(s))
}

pub fn toggled_at(s: &State) -> Toggled
    ensures { result ≡ toggled_of (saved s.now).sub (saved s.now).n }
{
    toggled_of(sub_byte(s), n_word(s))
}

pub fn complete_at(s: &State) -> Complete
    ensures { result ≡ complete_of (saved s.now).sub (saved s.now).ep }
{
    complete_of(sub_byte(s), ep_byte(s))
}

pub fn sof_at(s: &State) -> Sof
    ensures { result ≡ sof_of (saved s.now).sub (saved s.now).ep
        (saved s.now).eps }
{
    sof_of(sub_byte(s), ep_byte(s), eps_word(s))
}

pub fn late_at(s: &State) -> Late
    ensures { result ≡ late_of (saved s.now).sub (saved s.now).ep
        (saved s.now).eps }
{
    late_of(sub_byte(s), ep_byte(s), eps_word(s))
}

pub fn check_at(s: &State) -> Check
    ensures { result ≡ check_of (saved s.now).sub (saved s.now).ep
        (saved s.now).eps }
{
    check_of(sub_byte(s), ep_byte(s), eps_word(s))
}
