// The numbers of the interrupt's points: the saved record's `site`. An unknown one is the first.
pub const FRAME: u8 = 0;

pub const FLAGS: u8 = 1;

pub const BUS_RST: u8 = 2;

pub const SUSPEND: u8 = 3;

pub const FIFO: u8 = 4;

pub const HOST: u8 = 5;

pub const MIS: u8 = 6;

pub const ST: u8 = 7;

pub const LEN: u8 = 8;

pub const NAK: u8 = 9;

pub const RELEASED: u8 = 10;

pub const SETTLE: u8 = 11;

pub const FRAME_NO: u8 = 12;

pub const SOF: u8 = 13;

pub const LATE: u8 = 14;

pub const SOF_ARM: u8 = 15;

pub const FLIP: u8 = 16;

pub const FLIPPED: u8 = 17;

pub const TOGGLED: u8 = 18;

pub const COMPLETING: u8 = 19;

pub const CHECK: u8 = 20;

pub const MOVED_READ: u8 = 21;

pub const MOVED_WROTE: u8 = 22;

pub const SETUP_RX: u8 = 23;

pub const SETUP_TX: u8 = 24;

pub const SETUP_RELEASED: u8 = 25;

// The numbers of the points inside of one: the saved record's `sub`.

// Of `nak_non_iso`.
pub const NAK_OUT: u8 = 0;

pub const NAK_IN: u8 = 1;

pub const NAK_WROTE: u8 = 2;

// Of settling; the numbers below are those of its NAK.
pub const SETTLE_ISO_LOOK: u8 = 3;

pub const SETTLE_ISO_ST: u8 = 4;

pub const SETTLE_ISO_LEN: u8 = 5;

pub const SETTLE_BULK_LOOK: u8 = 6;

pub const SETTLE_BULK_LEN: u8 = 7;

pub const SETTLE_MIS: u8 = 8;

pub const SETTLE_FLAGS: u8 = 9;

pub const SETTLE_ST: u8 = 10;

// Of `toggled`.
pub const TOGGLED_LOOK: u8 = 0;

pub const TOGGLED_WORD: u8 = 1;

pub const TOGGLED_ACK_READ: u8 = 2;

pub const TOGGLED_ACKED: u8 = 3;

// Of a completion.
pub const SENT: u8 = 0;

pub const LOADED: u8 = 1;

// Of a SOF; the numbers below are those of its completion.
pub const SOF_MIS: u8 = 2;

pub const SOF_ST: u8 = 3;

pub const SOF_CALLBACK: u8 = 4;

// Of a check of isochronous OUTs.
pub const CHECK_ST: u8 = 0;

pub const CHECK_ARMED: u8 = 1;
