// The lent slot buffer: rows 1 and 2 of start-up.
ghost use Rattle.std.specs.Prelude.{◌≡◌, ◌*◌};
ghost use Rattle.alloc.specs.Buffer.{good_size, good_buffer, fits};

// Whether a slot has one of the sizes that the driver takes: 8, 16, 32, 64, 512 or 1,024 bytes.
pub fn validate_buffer_size(size: u32) -> bool
    ensures { result ≡ good_size size }
{
    match size {
        8 | 16 | 32 | 64 | 512 | 1024 => true,
        _ => false,
    }
}

// A product of two 32-bit numbers fits 64 bits.
pub fn product(size: u32, count: u32) -> u64
    ensures { result ≡ count * size }
{
    (count as u64) * (size as u64)
}

// Whether start-up accepts so many slots of this size (row 2): a good size, at least one, 65,536 bytes at most.
pub fn good_buffer(size: u32, count: u32) -> bool
    ensures { result ≡ good_buffer size count }
{
    if !validate_buffer_size(size) {
        return false;
    }
    if count == 0 {
        return false;
    }
    product(size, count) <= 65536
}

// Whether a lent buffer has exactly the bytes of so many slots; the product cannot wrap.
pub fn fits(length: u64, size: u32, count: u32) -> bool
    ensures { result ≡ fits length size count }
{
    length == product(size, count)
}
