// Hex digits, and the bytes of pairs of them.
ghost use Rattle.std.specs.Prelude.{◌≡◌, ◌≢◌, false, ◌+◌, ◌*◌, ◌<◌, ◌≤◌, length, MatchOption};
ghost use Rattle.storing.specs.Went.{RoomFor, Went};
ghost use Rattle.texts.specs.Codes.{hex_value, no_digit, wrong_pairs, first_pairs};

use storing::Pen;

const SIXTEEN: u8 = 16;

const TEN: u8 = 10;

// The value of a digit. By hand, and no `to_digit`, which looks at a character in more steps: a text of codes in hex took more instructions by it.
#[tactic(auto, using(std::proofs::lemmas::Bool::Decides::nat_tests), unfolding(crate::specs::Codes::hex_value))]
fn hex_value(b: u8) -> Option<u8>
    ensures { MatchOption result (hex_value b ≡ no_digit) (λ d. (d ≡ hex_value b) × (d < no_digit)) }
{
    match b {
        b'0'..=b'9' => Some(b - b'0'),
        b'a'..=b'f' => Some(b - b'a' + TEN),
        b'A'..=b'F' => Some(b - b'A' + TEN),
        _ => None,
    }
}

// Whether the digits are odd in number, or one of them is none.
pub(crate) fn wrong_pairs(digits: &[u8]) -> bool
    ensures { result ≡ wrong_pairs digits.now }
{
    digits.len() % 2 != 0 || digits.iter().any(|b| hex_value(*b).is_none())
}

// The byte of two digits.
fn pair_byte(high: u8, low: u8) -> u8
    requires { (hex_value high ≢ no_digit) × (hex_value low ≢ no_digit) }
    ensures { result ≡ 16 * hex_value high + hex_value low }
{
    SIXTEEN * hex_value(high).unwrap() + hex_value(low).unwrap()
}

// Writes the bytes of the first pairs, so many of them.
pub(crate) fn put_pairs(out: &mut Pen, digits: &[u8], pairs: usize)
    requires right { wrong_pairs digits.now ≡ false }
    requires room { (2 * pairs ≤ length digits.now) × RoomFor pairs out.old }
    ensures { Went (first_pairs digits.now pairs) out.old out.new }
{
    for i in 0..pairs {
        out.byte(pair_byte(digits[2 * i], digits[2 * i + 1]));
    }
}
