ghost use Rattle.std.specs.Prelude.{◌≡◌};
ghost use Rattle.regs.specs.Registers.{number_of, width_of, fits_in, ctrl_of};

use crate::{Dir, Reg};

// A register's number, and how many bits a reading of it has; 0 for one that is never read.
#[derive(Clone, Copy)]
struct NumberWidth(u8, u8);

fn facts(reg: Reg) -> NumberWidth
    ensures { (result.0 ≡ number_of reg) × (result.1 ≡ width_of reg) }
{
    match reg {
        Reg::IntFg => NumberWidth(0, 6),
        Reg::IntSt => NumberWidth(1, 7),
        Reg::MisSt => NumberWidth(2, 2),
        Reg::RxLen => NumberWidth(3, 16),
        Reg::FrameNo => NumberWidth(4, 16),
        Reg::Ctrl => NumberWidth(5, 6),
        Reg::IntEn => NumberWidth(6, 0),
        Reg::DevAd => NumberWidth(7, 0),
        Reg::HostCtrl => NumberWidth(8, 0),
        Reg::EpConfig => NumberWidth(9, 0),
        Reg::EpType => NumberWidth(10, 0),
        Reg::EpBufMod => NumberWidth(11, 0),
        Reg::EpMaxLen => NumberWidth(13, 0),
        Reg::EpTLen => NumberWidth(14, 0),
        Reg::EpRxCtrl => NumberWidth(17, 8),
        Reg::EpTxCtrl => NumberWidth(18, 8),
    }
}

// A register's number in the exported calls' words.
pub fn number(reg: Reg) -> u8
    ensures { result ≡ number_of reg }
{
    let f = facts(reg);
    f.0
}

// How many bits a register has in document 01's packing.
pub fn width(reg: Reg) -> u8
    ensures { result ≡ width_of reg }
{
    let f = facts(reg);
    f.1
}

// Has the value no bit above the width? (row 16)
pub fn fits(value: u32, width: u8) -> bool
    ensures { result ≡ fits_in value width }
{
    if width < 32 {
        return value >> width == 0;
    }
    true
}

// The control word of a direction.
pub fn ctrl_of(dir: Dir) -> Reg
    ensures { result ≡ ctrl_of dir }
{
    match dir {
        Dir::Out => Reg::EpRxCtrl,
        Dir::In => Reg::EpTxCtrl,
    }
}
