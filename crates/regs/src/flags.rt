ghost use Rattle.std.specs.Prelude.{◌≡◌};
ghost use Rattle.regs.specs.Flags.{bus_rst, transfer, suspend, hst_sof, fifo_ov, setup_act};

// The words that clear one flag.
pub const BUS_RST: u32 = 1 << 0;

pub const TRANSFER: u32 = 1 << 1;

pub const SUSPEND: u32 = 1 << 2;

pub const HST_SOF: u32 = 1 << 3;

pub const FIFO_OV: u32 = 1 << 4;

pub const SETUP_ACT: u32 = 1 << 5;

// Whether int_fg shows a bus reset.
pub fn bus_rst(flags: u8) -> bool
    ensures { result ≡ bus_rst flags }
{
    bits::byte_has(flags, 0)
}

// Whether int_fg shows a transfer.
pub fn transfer(flags: u8) -> bool
    ensures { result ≡ transfer flags }
{
    bits::byte_has(flags, 1)
}

// Whether int_fg shows a suspend or a resume.
pub fn suspend(flags: u8) -> bool
    ensures { result ≡ suspend flags }
{
    bits::byte_has(flags, 2)
}

// Whether int_fg shows the host's start of frame.
pub fn hst_sof(flags: u8) -> bool
    ensures { result ≡ hst_sof flags }
{
    bits::byte_has(flags, 3)
}

// Whether int_fg shows a FIFO overflow.
pub fn fifo_ov(flags: u8) -> bool
    ensures { result ≡ fifo_ov flags }
{
    bits::byte_has(flags, 4)
}

// Whether int_fg shows a setup packet.
pub fn setup_act(flags: u8) -> bool
    ensures { result ≡ setup_act flags }
{
    bits::byte_has(flags, 5)
}
