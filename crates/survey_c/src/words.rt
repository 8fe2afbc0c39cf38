// An answer as one word: its kind in bits 0-3, its number from bit 8 on.
ghost use Rattle.std.specs.Prelude.{◌≡◌};
ghost use Rattle.survey_c.specs.Words.{refused_word, end_word, done_word};

// The word of a refusal by a row.
pub fn refused(row: u8) -> u64
    ensures { result ≡ refused_word row }
{
    row as u64 * 0x100
}

// The word of an end with a result.
pub fn ended(res: u32) -> u64
    ensures { result ≡ end_word res }
{
    5 + res as u64 * 0x100
}

// The word of a read that gave so many bytes.
pub fn done(length: u16) -> u64
    ensures { result ≡ done_word length }
{
    7 + length as u64 * 0x100
}
