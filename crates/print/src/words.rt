// What is written of a register: the name, the value's digits, what the value says.
use crate::registers::has_endpoint;
use crate::text::Named;
use regs::Reg;
use std::fmt;

const FLAGS: [&str; 6] = [
    "bus reset",
    "transfer",
    "suspend",
    "host start of frame",
    "FIFO overflow",
    "setup",
];

const CONTROL: [&str; 6] = [
    "clear all",
    "reset the SIE",
    "NAK while an interrupt waits",
    "DMA",
    "high speed",
    "pull-up",
];

const INTERRUPTS: [&str; 7] = [
    "NAK",
    "FIFO overflow",
    "setup",
    "suspend",
    "bus reset",
    "transfer",
    "start of frame",
];

// A register's name.
#[derive(Clone, Copy)]
pub struct Name(pub Reg);

impl fmt::Display for Name {
    fn fmt<W: fmt::Write>(&self, f: &mut fmt::Formatter<W>) -> fmt::Result {
        f.write_str(match self.0 {
            Reg::IntFg => "int_fg",
            Reg::IntSt => "int_st",
            Reg::MisSt => "mis_st",
            Reg::RxLen => "rx_len",
            Reg::FrameNo => "frame_no",
            Reg::Ctrl => "ctrl",
            Reg::IntEn => "int_en",
            Reg::DevAd => "dev_ad",
            Reg::HostCtrl => "host_ctrl",
            Reg::EpConfig => "ep_config",
            Reg::EpType => "ep_type",
            Reg::EpBufMod => "ep_buf_mod",
            Reg::EpMaxLen => "ep_max_len",
            Reg::EpTLen => "ep_t_len",
            Reg::EpRxCtrl => "ep_rx_ctrl",
            Reg::EpTxCtrl => "ep_tx_ctrl",
        })
    }
}

// A register's name; where there is one for each endpoint, with the endpoint's number.
#[derive(Clone, Copy)]
pub struct Register(pub Reg, pub u8);

impl fmt::Display for Register {
    fn fmt<W: fmt::Write>(&self, f: &mut fmt::Formatter<W>) -> fmt::Result {
        let e = self.1;
        write!(f, "{}", Name(self.0))?;
        if has_endpoint(self.0) {
            write!(f, "({e})")
        } else {
            Ok(())
        }
    }
}

// A register's value, in as many digits as the register has.
#[derive(Clone, Copy)]
pub struct Value(pub Reg, pub u32);

impl fmt::Display for Value {
    fn fmt<W: fmt::Write>(&self, f: &mut fmt::Formatter<W>) -> fmt::Result {
        let x = self.1;
        match self.0 {
            Reg::EpConfig | Reg::EpType | Reg::EpBufMod => write!(f, "{x:#010x}"),
            Reg::EpMaxLen | Reg::EpTLen => write!(f, "{x:#06x}"),
            _ => write!(f, "{x:#04x}"),
        }
    }
}

// The endpoints of a word, those of OUT first: bit e is IN e's, bit 16 + e OUT e's.
#[derive(Clone, Copy)]
pub struct Endpoints(pub u32);

impl fmt::Display for Endpoints {
    fn fmt<W: fmt::Write>(&self, f: &mut fmt::Formatter<W>) -> fmt::Result {
        let mut comma = "";
        for e in 0..16u8 {
            if bits::is_set(self.0, 16 + e) {
                write!(f, "{comma}OUT {e}")?;
                comma = ", ";
            }
        }
        for e in 0..16u8 {
            if bits::is_set(self.0, e) {
                write!(f, "{comma}IN {e}")?;
                comma = ", ";
            }
        }
        f.write_str(if comma.is_empty() { "none" } else { "" })
    }
}

// What an endpoint answers by its control word: the handshake, then the toggle.
#[derive(Clone, Copy)]
struct ControlWord(u32);

impl fmt::Display for ControlWord {
    fn fmt<W: fmt::Write>(&self, f: &mut fmt::Formatter<W>) -> fmt::Result {
        f.write_str(match self.0 & 3 {
            0 => "ACK",
            1 => "isochronous, no handshake",
            2 => "NAK",
            _ => "STALL",
        })?;
        f.write_str(match self.0 >> 2 & 3 {
            0 => "",
            1 => ", DATA1",
            _ => ", other toggle",
        })?;
        f.write_str(if bits::is_set(self.0, 4) {
            ", automatic toggle"
        } else {
            ""
        })
    }
}

// What a register's value says.
#[derive(Clone, Copy)]
pub struct Meaning(pub Reg, pub u32);

impl fmt::Display for Meaning {
    fn fmt<W: fmt::Write>(&self, f: &mut fmt::Formatter<W>) -> fmt::Result {
        let word = self.1;
        match self.0 {
            Reg::IntFg => write!(
                f,
                "clears {}",
                Named {
                    word,
                    names: &FLAGS
                }
            ),
            Reg::Ctrl => write!(
                f,
                "{}",
                Named {
                    word,
                    names: &CONTROL
                }
            ),
            Reg::IntEn => write!(
                f,
                "interrupts: {}",
                Named {
                    word,
                    names: &INTERRUPTS
                }
            ),
            Reg::DevAd => write!(f, "device address {word}"),
            Reg::HostCtrl => f.write_str(if bits::is_set(word, 0) {
                "the PHY is awake"
            } else {
                ""
            }),
            Reg::EpConfig => write!(f, "enabled: {}", Endpoints(word)),
            Reg::EpType => write!(f, "isochronous: {}", Endpoints(word)),
            Reg::EpBufMod => f.write_str("one buffer for each direction"),
            Reg::EpMaxLen | Reg::EpTLen => write!(f, "{word} bytes"),
            Reg::EpRxCtrl | Reg::EpTxCtrl => write!(f, "{}", ControlWord(word)),
            _ => Ok(()),
        }
    }
}
