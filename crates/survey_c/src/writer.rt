// A card's writer as four numbers of the caller's, and what a write ends with.
ghost use Rattle.std.specs.Prelude.{◌≡◌, min};
ghost use Rattle.survey_c.specs.Card.{writer_in, numbers_of, result_of};

use card::writer::Writer;

// The writer that a caller's four numbers are.
pub fn writer_in(numbers: &[u32; 4]) -> Writer
    ensures { result ≡ writer_in numbers.now }
{
    Writer {
        number: numbers[0],
        used: (numbers[1] % 65536) as u16,
        first: (numbers[2] % 65536) as u16,
        done: (numbers[3] % 65536) as u16,
    }
}

// The four numbers that a caller keeps of a writer.
pub fn numbers_of(w: Writer) -> [u32; 4]
    ensures { result ≡ numbers_of w }
{
    [w.number, w.used as u32, w.first as u32, w.done as u32]
}

// Bit 0: the block is to be stored; bit 1: the packet is written whole.
pub fn result_of(full: bool, done: bool) -> u32
    ensures { result ≡ result_of full done }
{
    if full {
        if done {
            return 3;
        }
        return 1;
    }
    if done {
        return 2;
    }
    0
}

// No number above 15 is an endpoint's: 16 stands for them.
pub fn endpoint_of(n: u32) -> u8
    ensures { result ≡ min n 16 }
{
    if n < 16 {
        return n as u8;
    }
    16
}
