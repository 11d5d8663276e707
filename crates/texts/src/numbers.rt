// A decimal number.
ghost use Rattle.std.specs.Prelude.{◌≡◌, ◌+◌, ◌-◌, ◌*◌, ◌<◌, ◌≤◌, ◌^◌};
ghost use Rattle.texts.specs.Numbers.{zero_sign, number_of};

// A number with one more digit.
fn with_digit(x: usize, b: u8) -> usize
    requires { (x < 2 ^ 32) × (zero_sign ≤ b) }
    ensures { result ≡ 10 * x + (b - zero_sign) }
{
    10 * x + (b - b'0') as usize
}

// The number that a word stands for, if it is at most the largest that is allowed.
pub fn read_number(word: &[u8], most: u32) -> Option<u32>
    ensures { result ≡ number_of most word.now }
{
    if word.is_empty() {
        return None;
    }
    let mut x = 0;
    for b in word {
        if !b.is_ascii_digit() {
            return None;
        }
        x = with_digit(x, *b);
        if (most as usize) < x {
            return None;
        }
    }
    Some(x as u32)
}
