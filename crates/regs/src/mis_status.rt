ghost use Rattle.std.specs.Prelude.{◌≡◌};
ghost use Rattle.regs.specs.MisStatus.{sie_free, suspended};

// Has the serial interface engine finished?
pub fn sie_free(status: u8) -> bool
    ensures { result ≡ sie_free status }
{
    bits::byte_has(status, 0)
}

// Is the bus suspended?
pub fn suspended(status: u8) -> bool
    ensures { result ≡ suspended status }
{
    bits::byte_has(status, 1)
}
