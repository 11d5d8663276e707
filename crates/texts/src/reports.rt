// A report: a line of three words, a code, a level and a time.
ghost use Rattle.std.specs.Prelude.{◌≡◌, length};
ghost use Rattle.counting.specs.Wrote.{Wrote};
ghost use Rattle.texts.specs.Words.{word as word_of};
ghost use Rattle.texts.specs.Codes.{code_stored};
ghost use Rattle.texts.specs.Reports.{report_of};

use crate::Report;
use crate::coding::{MOST_KEPT, read_code};
use crate::levels::read_level;
use crate::numbers::read_number;
use crate::words::{after_word, first_word, past_blanks};

// The largest time, a number of 32 bits.
pub const MOST_TIME: u32 = 4_294_967_295;

// The report that a line is. What is kept of its code goes to the start of an array.
pub fn read_report(line: &[u8], code: &mut [u8; MOST_KEPT]) -> Option<Report>
    ensures answer { result ≡ report_of line.now }
    ensures stored { Wrote 0 (code_stored (word_of line.now 0)) code.old code.new (length (code_stored (word_of line.now 0))) }
{
    let words = past_blanks(line);
    let size = read_code(first_word(words), code)?;
    let from_level = after_word(words);
    let from_time = after_word(from_level);
    let behind = after_word(from_time);
    if !behind.is_empty() {
        return None;
    }
    let level = read_level(first_word(from_level))?;
    let time = read_number(first_word(from_time), MOST_TIME)?;
    Some(Report { size, level, time })
}
