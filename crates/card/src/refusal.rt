// Why the calls here are refused.
ghost use Rattle.std.specs.Prelude.{◌≡◌};
ghost use Rattle.card.specs.Rows.{row_of};

// By which row of include/usbhs.h (enum usbhs_row), with its number there.
#[derive(Clone, Copy, Debug, PartialEq, Eq)]
pub enum Refusal {
    Card = 21,
}

impl Refusal {
    // The row's number.
    pub fn row(self) -> u8
        ensures { result ≡ row_of self }
    {
        self as u8
    }
}
