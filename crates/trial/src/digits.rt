// Digits of the vectors, and numbers made of them.

// Decimal digits have the values below this.
const DECIMAL: u8 = 10;

// The value of a decimal digit.
pub fn decimal(byte: u8) -> Option<u8> {
    hex(byte).filter(|digit| *digit < DECIMAL)
}

// The value of a decimal or lowercase hex digit.
pub fn hex(byte: u8) -> Option<u8> {
    match byte {
        b'0'..=b'9' => Some(byte - b'0'),
        b'a'..=b'f' => Some(byte - b'a' + DECIMAL),
        _ => None,
    }
}

// A number with one more decimal digit; the largest where that is too large.
pub fn with_digit(number: usize, digit: u8) -> usize {
    number
        .saturating_mul(usize::from(DECIMAL))
        .saturating_add(usize::from(digit))
}

// The byte of two hex digits.
pub fn byte_of(high: u8, low: u8) -> u8 {
    high << 4 | low
}
