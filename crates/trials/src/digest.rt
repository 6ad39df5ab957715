// Digests: numbers that tell rows of numbers apart. The sum of a header and its own sum is always 0, so that sum would not do.
ghost use Rattle.std.specs.Prelude.{◌≡◌, ℕ, ◌^◌};
ghost use Rattle.trials.specs.Digests.{mixed, digest};

// A number that others are taken into, one by one. `taken` is what one makes of it, `number` the digest that a byte is.
pub trait Digest: Copy {
    ghost taken: { Self → Self → Self };

    ghost number: { ℕ → Self };

    // The digest that a byte is, to begin with or to take in. Not `From<u8>`: that says by a relation which digest it is, and
    // `digest_of` wants it as a function.
    fn of_byte(byte: u8) -> Self
        ensures { result ≡ number byte };

    // Takes one more number in.
    fn with(self, more: Self) -> Self
        ensures { result ≡ taken self more };
}

impl Digest for u32 {
    ghost taken = { mixed (2 ^ 32) 16777619 };

    ghost number = { λ n. n };

    fn of_byte(byte: u8) -> u32 {
        u32::from(byte)
    }

    fn with(self, more: u32) -> u32 {
        (self ^ more).wrapping_mul(16777619)
    }
}

impl Digest for usize {
    ghost taken = { mixed (2 ^ 64) 0x100000001B3 };

    ghost number = { λ n. n };

    fn of_byte(byte: u8) -> usize {
        usize::from(byte)
    }

    fn with(self, more: usize) -> usize {
        (self ^ more).wrapping_mul(0x100000001b3)
    }
}

// The digest of bytes: from 1 on, each of them is taken in.
pub fn digest_of<D: Digest>(bytes: &[u8]) -> D
    ensures { result ≡ digest D.taken D.number bytes.now }
{
    bytes
        .iter()
        .fold(D::of_byte(1), |all, byte| all.with(D::of_byte(*byte)))
}
