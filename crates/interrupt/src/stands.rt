// The interrupt stands at a point, or ends: the saved record's 22 bytes are stored where the point is made, and its
// access is the answer.
ghost use Rattle.std.specs.Prelude.{◌≡◌, false};
ghost use Rattle.state.specs.State.{view, saved};
ghost use Rattle.script.specs.Tree.{ends};
ghost use Rattle.script_ops.specs.Numbers as tags;
ghost use Rattle.regs.specs.declared.Access.TheVariants as Access;
ghost use Rattle.regs.specs.declared.Reg.TheVariants as Reg;
ghost use Rattle.interrupt.specs.declared.Point.TheVariants as Point;
ghost use Rattle.interrupt.specs.Codec as codec;
ghost use Rattle.answer.specs.declared.Step.TheVariants as Step;
ghost use Rattle.interrupt.specs.Suspended.{with_tag};
ghost use Rattle.answer.specs.Word.{Encodes};
ghost use Rattle.interrupt.specs.Stands.{Stands, RunsOn};

use crate::codec::{
    check_as, code, complete_as, early, late_as, nak_as, none, on_dir, settle_as, sof_as,
    toggled_as,
};
use crate::nak::Nak;
use crate::settle::Settle;
use crate::toggled::Toggled;
use crate::{Entry, sites};
use answer::woken::how_many;
use answer::word::{asks, asks_read, asks_write, ended};
use isochronous::complete::Complete;
use isochronous::late::Late;
use isochronous::out::Check;
use isochronous::sof::Sof;
use regs::{Access, Dir, Reg};
use script::Transfer;
use script_ops::points::INTERRUPT;
use state::{Saved, State, nothing, store_saved};

// What is saved of a point, under the interrupt's tag.
fn store(s: &mut State, p: Saved)
    ensures { (view s.new ≡ view s.old)
        × (saved s.new ≡ with_tag tags.INTERRUPT p) }
{
    let mut c = p;
    c.tag = INTERRUPT;
    store_saved(s, c);
}

// The word of an access is made where the point is: of a register it is a number that the compiler knows.
fn stand(s: &mut State, q: Access, p: Saved) -> u64
    ensures { Encodes result (Step.Asks q) × ((view s.new ≡ view s.old)
        × (saved s.new ≡ with_tag tags.INTERRUPT p)) }
{
    store(s, p);
    asks(q)
}

fn stand_read(s: &mut State, register: Reg, p: Saved) -> u64
    ensures { Encodes result (Step.Asks (Access.Read register 0))
        × ((view s.new ≡ view s.old) × (saved s.new ≡ with_tag tags.INTERRUPT p)) }
{
    store(s, p);
    asks_read(register)
}

fn stand_write(s: &mut State, register: Reg, value: u32, p: Saved) -> u64
    ensures { Encodes result (Step.Asks (Access.Write register 0 value))
        × ((view s.new ≡ view s.old) × (saved s.new ≡ with_tag tags.INTERRUPT p)) }
{
    store(s, p);
    asks_write(register, value)
}

// What is saved before there is a transfer: the setup flag, whether one is on the bus, the flags or the status.
fn before_transfer(site: u8, setup: bool, busy: bool, st: u8) -> Saved
    ensures { result ≡ codec.code site setup (codec.early busy st) 0 (codec.none false) }
{
    code(site, setup, early(busy, st), 0, none(false))
}

// A register is read before there is a transfer.
fn read_before(s: &mut State, register: Reg, site: u8, setup: bool, busy: bool, st: u8) -> u64
    ensures { Encodes result (Step.Asks (Access.Read register 0)) × ((view s.new ≡ view s.old)
        × (saved s.new ≡ with_tag tags.INTERRUPT
        (codec.code site setup (codec.early busy st) 0 (codec.none false)))) }
{
    stand_read(s, register, before_transfer(site, setup, busy, st))
}

// One is written, with the flags at hand.
fn write_before(s: &mut State, register: Reg, value: u32, site: u8, f: u8) -> u64
    ensures { Encodes result (Step.Asks (Access.Write register 0 value))
        × ((view s.new ≡ view s.old)
        × (saved s.new ≡ with_tag tags.INTERRUPT
        (codec.code site false (codec.early false f) 0 (codec.none false)))) }
{
    stand_write(s, register, value, before_transfer(site, false, false, f))
}

// Frame_no is read first: what is saved where an interrupt begins.
pub fn store_frame(s: &mut State)
    ensures { (view s.new ≡ view s.old)
        × (saved s.new ≡ with_tag tags.INTERRUPT (codec.as_numbers Point.Frame)) }
{
    store(s, before_transfer(sites::FRAME, false, false, 0));
}

// Int_fg is read.
pub fn stand_flags(s: &mut State) -> u64
    ensures { Stands result (Access.Read Reg.IntFg 0) Point.Flags s.old s.new }
{
    read_before(s, Reg::IntFg, sites::FLAGS, false, false, 0)
}

// The reset interrupt is masked.
pub fn stand_bus_rst(s: &mut State, value: u32, f: u8) -> u64
    ensures { Stands result (Access.Write Reg.IntEn 0 value) (Point.BusRst f) s.old s.new }
{
    write_before(s, Reg::IntEn, value, sites::BUS_RST, f)
}

// The suspend interrupt is.
pub fn stand_suspend(s: &mut State, value: u32, f: u8) -> u64
    ensures { Stands result (Access.Write Reg.IntEn 0 value) (Point.Suspend f) s.old s.new }
{
    write_before(s, Reg::IntEn, value, sites::SUSPEND, f)
}

// The FIFO flag is cleared.
pub fn stand_fifo(s: &mut State, value: u32, f: u8) -> u64
    ensures { Stands result (Access.Write Reg.IntFg 0 value) (Point.Fifo f) s.old s.new }
{
    write_before(s, Reg::IntFg, value, sites::FIFO, f)
}

// The host SOF flag is.
pub fn stand_host(s: &mut State, value: u32, f: u8) -> u64
    ensures { Stands result (Access.Write Reg.IntFg 0 value) (Point.Host f) s.old s.new }
{
    write_before(s, Reg::IntFg, value, sites::HOST, f)
}

// Mis_st is read.
pub fn stand_mis(s: &mut State, setup: bool) -> u64
    ensures { Stands result (Access.Read Reg.MisSt 0) (Point.Mis setup) s.old s.new }
{
    read_before(s, Reg::MisSt, sites::MIS, setup, false, 0)
}

// Int_st.
pub fn stand_st(s: &mut State, setup: bool, busy: bool) -> u64
    ensures { Stands result (Access.Read Reg.IntSt 0) (Point.St setup busy) s.old s.new }
{
    read_before(s, Reg::IntSt, sites::ST, setup, busy, 0)
}

// Rx_len.
pub fn stand_len(s: &mut State, setup: bool, busy: bool, st: u8) -> u64
    ensures { Stands result (Access.Read Reg.RxLen 0) (Point.Len setup busy st) s.old s.new }
{
    read_before(s, Reg::RxLen, sites::LEN, setup, busy, st)
}

// NAK before the release.
pub fn stand_nak(s: &mut State, q: Access, setup: bool, x: Transfer, p: Nak) -> u64
    ensures { Stands result q (Point.Nak setup x p) s.old s.new }
{
    stand(s, q, code(sites::NAK, setup, x, 0, nak_as(0, p)))
}

// The transfer flag is cleared.
pub fn stand_released(s: &mut State, value: u32, setup: bool, x: Transfer) -> u64
    ensures { Stands result (Access.Write Reg.IntFg 0 value) (Point.Released setup x) s.old
        s.new }
{
    stand_write(
        s,
        Reg::IntFg,
        value,
        code(sites::RELEASED, setup, x, 0, none(false)),
    )
}

// What was on the bus is waited for.
pub fn stand_settle(s: &mut State, q: Access, setup: bool, x: Transfer, p: Settle) -> u64
    ensures { Stands result q (Point.Settle setup x p) s.old s.new }
{
    stand(s, q, code(sites::SETTLE, setup, x, 0, settle_as(p)))
}

// Frame_no is read.
pub fn stand_frame_no(s: &mut State, e: Entry) -> u64
    ensures { Stands result (Access.Read Reg.FrameNo 0) (Point.FrameNo e.setup e.x e.iso) s.old
        s.new }
{
    stand_read(
        s,
        Reg::FrameNo,
        code(sites::FRAME_NO, e.setup, e.x, 0, none(e.iso)),
    )
}

// A SOF that was not handled.
pub fn stand_sof(s: &mut State, q: Access, e: Entry, p: Sof) -> u64
    ensures { Stands result q (Point.Sof e.setup e.x e.iso e.frame p) s.old s.new }
{
    stand(
        s,
        q,
        code(sites::SOF, e.setup, e.x, e.frame, sof_as(e.iso, p)),
    )
}

// A late entry's completions.
pub fn stand_late(s: &mut State, q: Access, e: Entry, p: Late) -> u64
    ensures { Stands result q (Point.Late e.setup e.x e.iso e.frame p) s.old
        s.new }
{
    stand(
        s,
        q,
        code(sites::LATE, e.setup, e.x, e.frame, late_as(e.iso, p)),
    )
}

// The arm of SOF.
pub fn stand_sof_arm(s: &mut State, q: Access, e: Entry, p: Sof) -> u64
    ensures { Stands result q (Point.SofArm e.setup e.x e.iso e.frame p) s.old
        s.new }
{
    stand(
        s,
        q,
        code(sites::SOF_ARM, e.setup, e.x, e.frame, sof_as(e.iso, p)),
    )
}

// EP0's control word is read.
pub fn stand_flip(s: &mut State, q: Access, d: Dir, e: Entry) -> u64
    ensures { Stands result q (Point.Flip d e.setup e.x e.iso) s.old s.new }
{
    stand(s, q, code(sites::FLIP, e.setup, e.x, 0, on_dir(d, e.iso)))
}

// Its toggle is flipped.
pub fn stand_flipped(s: &mut State, q: Access, d: Dir, e: Entry) -> u64
    ensures { Stands result q (Point.Flipped d e.setup e.x e.iso) s.old s.new }
{
    stand(
        s,
        q,
        code(sites::FLIPPED, e.setup, e.x, 0, on_dir(d, e.iso)),
    )
}

// Did a packet go through?.
pub fn stand_toggled(s: &mut State, q: Access, d: Dir, e: Entry, p: Toggled) -> u64
    ensures { Stands result q (Point.Toggled d e.setup e.x e.iso p) s.old s.new }
{
    stand(
        s,
        q,
        code(sites::TOGGLED, e.setup, e.x, 0, toggled_as(d, e.iso, p)),
    )
}

// An isochronous IN completes.
pub fn stand_completing(s: &mut State, q: Access, e: Entry, p: Complete) -> u64
    ensures { Stands result q (Point.Completing e.setup e.x e.iso p) s.old s.new }
{
    stand(
        s,
        q,
        code(sites::COMPLETING, e.setup, e.x, 0, complete_as(e.iso, 0, p)),
    )
}

// Isochronous OUTs are looked at.
pub fn stand_check(s: &mut State, q: Access, e: Entry, p: Check) -> u64
    ensures { Stands result q (Point.Check e.setup e.x e.iso p) s.old s.new }
{
    stand(
        s,
        q,
        code(sites::CHECK, e.setup, e.x, 0, check_as(e.iso, p)),
    )
}

// EP0's control word is read, for its hidden stage.
pub fn stand_moved_read(s: &mut State, q: Access, d: Dir, setup: bool) -> u64
    ensures { Stands result q (Point.MovedRead d setup) s.old s.new }
{
    stand(
        s,
        q,
        code(
            sites::MOVED_READ,
            setup,
            early(false, 0),
            0,
            on_dir(d, false),
        ),
    )
}

// It answers NAK.
pub fn stand_moved_wrote(s: &mut State, q: Access, d: Dir, setup: bool) -> u64
    ensures { Stands result q (Point.MovedWrote d setup) s.old s.new }
{
    stand(
        s,
        q,
        code(
            sites::MOVED_WROTE,
            setup,
            early(false, 0),
            0,
            on_dir(d, false),
        ),
    )
}

// EP0's OUT answers NAK.
pub fn stand_setup_rx(s: &mut State, value: u32) -> u64
    ensures { Stands result (Access.Write Reg.EpRxCtrl 0 value) Point.SetupRx s.old s.new }
{
    write_before(s, Reg::EpRxCtrl, value, sites::SETUP_RX, 0)
}

// And its IN.
pub fn stand_setup_tx(s: &mut State, value: u32) -> u64
    ensures { Stands result (Access.Write Reg.EpTxCtrl 0 value) Point.SetupTx s.old s.new }
{
    write_before(s, Reg::EpTxCtrl, value, sites::SETUP_TX, 0)
}

// The setup flag is cleared.
pub fn stand_setup_released(s: &mut State, value: u32) -> u64
    ensures { Stands result (Access.Write Reg.IntFg 0 value) Point.SetupReleased s.old s.new }
{
    write_before(s, Reg::IntFg, value, sites::SETUP_RELEASED, 0)
}

// The interrupt has ended: nothing is under way, and its wake-ups are answered.
pub fn stop(s: &mut State) -> u64
    ensures { RunsOn result (λ t. ends 0 t) s.old s.new }
{
    store_saved(s, nothing());
    let k = how_many(s);
    ended(0, k)
}
