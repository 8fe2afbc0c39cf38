// The chip's registers as this port numbers and packs them: what a reading's bits say, and the words that are written.
#![tactic(auto)]

pub mod control_word;
pub mod ctrl;
pub mod enables;
pub mod flags;
pub mod int_en;
pub mod mis_status;
pub mod registers;
pub mod status;

// The registers that the driver reads and writes, but for the addresses of buffers (see Access).
#[derive(Clone, Copy)]
pub enum Reg {
    IntFg,
    IntSt,
    MisSt,
    RxLen,
    FrameNo,
    Ctrl,
    IntEn,
    DevAd,
    HostCtrl,
    EpConfig,
    EpType,
    EpBufMod,
    EpMaxLen,
    EpTLen,
    EpRxCtrl,
    EpTxCtrl,
}

// An endpoint's direction, as the host sees it.
#[derive(Clone, Copy)]
pub enum Dir {
    Out,
    In,
}

// What one call hands out: a reading, a write of a value, the write of a receive, transmit or EP0 buffer address
// (ep_rx_dma, ep_tx_dma, ep0_dma), a wait in microseconds, the start-of-frame callback.
// The number beside a register is the endpoint's, 0 where the register has none; then comes the value or the address.
#[derive(Clone, Copy)]
pub enum Access {
    Read(Reg, u8),
    Write(Reg, u8, u32),
    Receive(u8, u32),
    Transmit(u8, u32),
    Ep0Dma(u32),
    Wait(u8),
    Callback,
}

// The token of a transaction, as the interrupt status shows it.
#[derive(Clone, Copy)]
pub enum Token {
    Out,
    Sof,
    In,
    Setup,
}
