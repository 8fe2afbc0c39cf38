ghost use Rattle.std.specs.Prelude.{◌≡◌};
ghost use Rattle.regs.specs.Ctrl.{CLEAR, RUN, PHY_SUSPENDM, reset_ended, pulled_up};

// The value of ctrl with clr_all and reset_sie set.
pub fn clear() -> u32
    ensures { result ≡ CLEAR }
{
    1 << 0 | 1 << 1
}

// The value of ctrl that runs the block: int_busy, dma_en and high speed.
pub fn run() -> u32
    ensures { result ≡ RUN }
{
    1 << 2 | 1 << 3 | 1 << 4
}

// The host register's phy_suspendm.
pub fn phy_suspendm() -> u32
    ensures { result ≡ PHY_SUSPENDM }
{
    1 << 0
}

// A reading with reset_sie cleared.
pub fn reset_ended(ctrl: u32) -> u32
    ensures { result ≡ reset_ended ctrl }
{
    bits::with_bit(ctrl, 1, false)
}

// A reading with dev_pu_en set.
pub fn pulled_up(ctrl: u32) -> u32
    ensures { result ≡ pulled_up ctrl }
{
    bits::with_bit(ctrl, 5, true)
}
