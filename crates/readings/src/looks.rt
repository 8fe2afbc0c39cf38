// Looks at a SIE that is still busy, brought at once: the wait stands where as many calls would have left it, and only
// that point is stored.
ghost use Rattle.std.specs.Prelude.{◌≡◌, true, false, List, ℕ, ◌≤◌};
ghost use Rattle.regs.specs.Registers.{fits_in};
ghost use Rattle.regs.specs.MisStatus.{sie_free};
ghost use Rattle.state.specs.State.{view};
ghost use Rattle.interrupt.specs.Stands.{AtSite};
ghost use Rattle.machine.specs.Suspended.{slots_fit};
ghost use Rattle.readings.specs.Readings.{lent};
ghost use Rattle.readings.specs.Passing.{Looked};

use answer::loads::site_byte;
use interrupt::loads::{dir_at, entry_at, settle_at, setup_at, toggled_at, transfer_at};
use interrupt::settle::Settle;
use interrupt::stands::{stand_settle, stand_toggled};
use interrupt::toggled::Toggled;
use interrupt::wait::byte;
use machine::saved::tag;
use machine::stops::slots_fit;
use regs::registers::fits;
use regs::{Access, Reg, mis_status};
use state::State;

// The tag of an interrupt's point, and the numbers of those that wait: a transfer that is settled, a packet whose
// toggle is looked at.
const INTERRUPT: u8 = 6;

const SETTLE: u8 = 11;

const TOGGLED: u8 = 18;

// Lends an array as a slice, by which its borrower learns how long the list is.
fn sized(_s: &[u8]) {}

// Does the reading say that the SIE is busy, and would it be taken?
fn is_busy(v: u32) -> bool
    ensures { result ≡ true → (fits_in v 2 ≡ true) × (sie_free v ≡ false) }
{
    if fits(v, 2) {
        return !mis_status::sie_free(byte(v));
    }
    false
}

// As many of the k looks as may follow.
fn fewest(k: u32, n: u16) -> u16
    ensures { (result ≤ k) × (result ≤ n) }
{
    if k < n as u32 {
        return k as u16;
    }
    n
}

fn settle_looks(s: &mut State, slots: &[u8], k: u32, v: u32) -> u32
    requires { AtSite 11 s.old × (slots_fit (view s.old) slots.now ≡ true) × (fits_in v 2 ≡ true)
        × (sie_free v ≡ false) }
    ensures { (result ≤ k) × ((i : ℕ) (time : List ℕ) → Looked result i v
        (lent s.old slots.now time) (lent s.new slots.now time)) }
{
    match settle_at(s) {
        Settle::IsoLook(n) => {
            let j = fewest(k, n);
            if j == 0 {
                return 0;
            }
            sized(s);
            let setup = setup_at(s);
            let x = transfer_at(s);
            stand_settle(
                s,
                Access::Read(Reg::MisSt, 0),
                setup,
                x,
                Settle::IsoLook(n - j),
            );
            j as u32
        }
        Settle::BulkLook(n) => {
            let j = fewest(k, n);
            if j == 0 {
                return 0;
            }
            sized(s);
            let setup = setup_at(s);
            let x = transfer_at(s);
            stand_settle(
                s,
                Access::Read(Reg::MisSt, 0),
                setup,
                x,
                Settle::BulkLook(n - j),
            );
            j as u32
        }
        _ => 0,
    }
}

fn toggled_looks(s: &mut State, slots: &[u8], k: u32, v: u32) -> u32
    requires { AtSite 18 s.old × (slots_fit (view s.old) slots.now ≡ true) × (fits_in v 2 ≡ true)
        × (sie_free v ≡ false) }
    ensures { (result ≤ k) × ((i : ℕ) (time : List ℕ) → Looked result i v
        (lent s.old slots.now time) (lent s.new slots.now time)) }
{
    match toggled_at(s) {
        Toggled::Look(n) => {
            let j = fewest(k, n);
            if j == 0 {
                return 0;
            }
            sized(s);
            let d = dir_at(s);
            let e = entry_at(s);
            stand_toggled(s, Access::Read(Reg::MisSt, 0), d, e, Toggled::Look(n - j));
            j as u32
        }
        _ => 0,
    }
}

// How many of k looks that read v could be brought at once: the SIE was busy, and after each of them one more look is
// asked for.
pub fn look(s: &mut State, slots: &[u8], k: u32, v: u32) -> u32
    ensures { (result ≤ k) × ((i : ℕ) (time : List ℕ) → Looked result i v
        (lent s.old slots.now time) (lent s.new slots.now time)) }
{
    if tag(s) == INTERRUPT {
        if slots_fit(s, slots) {
            if is_busy(v) {
                let site = site_byte(s);
                if site == SETTLE {
                    return settle_looks(s, slots, k, v);
                }
                if site == TOGGLED {
                    return toggled_looks(s, slots, k, v);
                }
                return 0;
            }
            return 0;
        }
        return 0;
    }
    0
}
