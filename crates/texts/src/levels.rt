// A level: a number that may start with `-`.
ghost use Rattle.std.specs.Prelude.{◌≡◌};
ghost use Rattle.texts.specs.Levels.{level_of};

use crate::numbers::read_number;

// The largest number that has 32 bits with either sign.
const MOST_LEVEL: u32 = 2_147_483_647;

// The level that a word stands for.
pub fn read_level(word: &[u8]) -> Option<i32>
    ensures { result ≡ level_of word.now }
{
    match word.strip_prefix(b"-") {
        Some(digits) => Some(-(read_number(digits, MOST_LEVEL)? as i32)),
        None => Some(read_number(word, MOST_LEVEL)? as i32),
    }
}
