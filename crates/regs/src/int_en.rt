ghost use Rattle.std.specs.Prelude.{◌≡◌};
ghost use Rattle.regs.specs.IntEn.{at_start, with_suspend, with_bus_rst};

// The enables that start-up writes: fifo_ov, setup_act, suspend, bus_rst, transfer, and sof_act where there is a
// callback.
pub fn at_start(callback: bool) -> u8
    ensures { result ≡ at_start callback }
{
    if callback {
        return 0x7E;
    }
    0x3E
}

// int_en with the suspend interrupt turned on or off.
pub fn with_suspend(enables: u8, on: bool) -> u8
    ensures { result ≡ with_suspend enables on }
{
    bits::byte_with(enables, 3, on)
}

// int_en with the bus reset's interrupt turned on or off.
pub fn with_bus_rst(enables: u8, on: bool) -> u8
    ensures { result ≡ with_bus_rst enables on }
{
    bits::byte_with(enables, 4, on)
}
