ghost use Rattle.std.specs.Prelude.{◌≡◌, ◌/◌, ◌%◌};
ghost use Rattle.regs.specs.Status.{endpoint, token, tog_ok, is_out, is_sof, is_in};

use crate::Token;

// The endpoint of the last transaction.
pub fn endpoint(status: u8) -> u8
    ensures { result ≡ endpoint status }
{
    status & 15
}

// The token that a status names.
pub fn token(status: u8) -> Token
    ensures { result ≡ token status }
{
    match status >> 4 & 3 {
        0 => Token::Out,
        1 => Token::Sof,
        2 => Token::In,
        _ => Token::Setup,
    }
}

// Was its toggle the expected one?
pub fn tog_ok(status: u8) -> bool
    ensures { result ≡ tog_ok status }
{
    bits::byte_has(status, 6)
}

// The token's number: 0 OUT, 1 SOF, 2 IN, 3 SETUP.
fn token_number(status: u8) -> u8
    ensures { result ≡ status / 16 % 4 }
{
    status >> 4 & 3
}

// Is the token OUT?
pub fn is_out(status: u8) -> bool
    ensures { result ≡ is_out status }
{
    token_number(status) == 0
}

// Whether the token is a SOF.
pub fn is_sof(status: u8) -> bool
    ensures { result ≡ is_sof status }
{
    token_number(status) == 1
}

// Whether the token is IN.
pub fn is_in(status: u8) -> bool
    ensures { result ≡ is_in status }
{
    token_number(status) == 2
}
