// What the points of every operation have in common: the tags that say whose a saved point is, their parts as numbers.
ghost use Rattle.std.specs.Prelude.{◌≡◌};
ghost use Rattle.script.specs.Statics.{flag};
ghost use Rattle.script_ops.specs.Numbers.{dir_as};

use regs::Dir;

// Whose point is saved: the record's tag. At 0, and at any other number, nothing is under way.
pub const DRIVER: u8 = 1;

pub const BUS: u8 = 2;

pub const CONTROL: u8 = 3;

pub const ENDPOINT: u8 = 4;

pub const ADVANCE: u8 = 5;

pub const INTERRUPT: u8 = 6;

// A direction as a number: 0 for OUT, 1 for IN.
pub fn dir_as(d: Dir) -> u8
    ensures { result ≡ dir_as d }
{
    match d {
        Dir::Out => 0,
        Dir::In => 1,
    }
}

// A flag as a number: 1 for true, 0 for false.
pub fn flag_of(on: bool) -> u8
    ensures { result ≡ flag on }
{
    if on { 1 } else { 0 }
}
