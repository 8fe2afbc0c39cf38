// Isochronous OUTs looked at, EP0's hidden stage, a new control transfer (mod.rs 792-852).
ghost use Rattle.std.specs.Prelude.{List, ℕ};
ghost use Rattle.interrupt.specs.Codec as sites;
ghost use Rattle.interrupt.specs.Stands.{AtSite, ResumesByWord};

use crate::check::{after_checking, after_moved_read, after_moved_wrote};
use crate::loads::{check_at, dir_at, entry_at, setup_at};
use crate::setup::{after_setup_released, after_setup_rx, after_setup_tx};
use answer::word::ROW_16;
use regs::registers::fits;
use state::State;

// isochronous OUTs are looked at (`iso_out_check`).
pub fn resume_check(s: &mut State, slots: &mut [u8], v: u32) -> u64
    requires { AtSite sites.CHECK s.old }
    ensures { ResumesByWord result v s.old slots.old s.new slots.new }
{
    let q = check_at(s);
    if isochronous::out::fits_at(q, v) {
        let e = entry_at(s);
        return after_checking(s, slots, e, q, v);
    }
    ROW_16
}

// EP0's control word, for its hidden stage (`ep0_moved_on`).
pub fn resume_moved_read(s: &mut State, v: u32) -> u64
    requires { AtSite sites.MOVED-READ s.old }
    ensures { (b : List ℕ) → ResumesByWord result v s.old b s.new b }
{
    if fits(v, 8) {
        let d = dir_at(s);
        let setup = setup_at(s);
        return after_moved_read(s, d, setup, v);
    }
    ROW_16
}

// it answers NAK.
pub fn resume_moved_wrote(s: &mut State) -> u64
    requires { AtSite sites.MOVED-WROTE s.old }
    ensures { (v : ℕ) (b : List ℕ) → ResumesByWord result v s.old b s.new b }
{
    let d = dir_at(s);
    let setup = setup_at(s);
    after_moved_wrote(s, d, setup)
}

// EP0's OUT answers NAK (mod.rs 803-818).
pub fn resume_setup_rx(s: &mut State) -> u64
    requires { AtSite sites.SETUP-RX s.old }
    ensures { (v : ℕ) (b : List ℕ) → ResumesByWord result v s.old b s.new b }
{
    after_setup_rx(s)
}

// and its IN.
pub fn resume_setup_tx(s: &mut State, slots: &mut [u8]) -> u64
    requires { AtSite sites.SETUP-TX s.old }
    ensures { (v : ℕ) → ResumesByWord result v s.old slots.old s.new
        slots.new }
{
    after_setup_tx(s, slots)
}

// the setup flag is cleared.
pub fn resume_setup_released(s: &mut State) -> u64
    requires { AtSite sites.SETUP-RELEASED s.old }
    ensures { (v : ℕ) (b : List ℕ) → ResumesByWord result v s.old b s.new b }
{
    after_setup_released(s)
}
