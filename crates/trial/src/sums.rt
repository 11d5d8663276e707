// Two checksums by which a whole buffer is compared (second/src/trial/checksums.rs says what they see).
use std::fmt;
use std::fmt::Display;

// The largest prime below 2^32, so that a sum times a factor is far below 2^64.
const PRIME: u64 = 4_294_967_291;

const FIRST_FACTOR: u64 = 257;

const SECOND_FACTOR: u64 = 65_537;

// By default the checksums of no bytes.
#[derive(Clone, Copy, Default)]
pub struct Sums {
    first: u64,
    second: u64,
}

impl Sums {
    // The checksums of bytes.
    pub fn of(bytes: &[u8]) -> Sums {
        bytes
            .iter()
            .fold(Sums::default(), |sums, byte| sums.with(*byte))
    }

    // The checksums with one byte more.
    fn with(self, byte: u8) -> Sums {
        let digit = u64::from(byte) + 1;
        Sums {
            first: (self.first % PRIME * FIRST_FACTOR + digit) % PRIME,
            second: (self.second % PRIME * SECOND_FACTOR + digit) % PRIME,
        }
    }
}

impl Display for Sums {
    fn fmt<W: fmt::Write>(&self, f: &mut fmt::Formatter<W>) -> fmt::Result {
        let Sums { first, second } = *self;
        write!(f, "{first} {second}")
    }
}
