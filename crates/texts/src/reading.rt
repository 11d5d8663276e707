// All codes of a text, and all weights of one.
ghost use Rattle.std.specs.Prelude.{◌≡◌, ◌≤◌, length};
ghost use Rattle.counting.specs.Wrote.{Wrote};
ghost use Rattle.storing.specs.Went.{RoomFor, Went};
ghost use Rattle.texts.specs.Reading.{most_lines, most_run, lines_right, run_of, ends_of, codes_of, most_words, words_right, values_of, weights_of};

use crate::coding::{put_code, wrong_line};
use crate::lines::{after_line, first_line};
use crate::numbers::read_number;
use crate::words::{after_word, first_word, past_blanks};
use crate::{Codes, WrongLine, WrongWord};
use storing::Pen;

// One more than the most codes, and one more than the most weights.
pub const MOST_LINES: usize = 1_025;

pub const MOST_WORDS: usize = 97;

const MOST_WEIGHT: u32 = 65_535;

// The codes of a text, up to the first line that is wrong: their bytes go where the pen stands and their ends to the start of the ends.
fn write_codes(text: &[u8], out: &mut Pen, ends: &mut [u16]) -> Result<Codes, WrongLine>
    requires start { out.old.at ≡ 0 }
    requires room { RoomFor most_run out.old × (most_lines ≤ length ends.old) }
    ensures answer { result ≡ codes_of text.now }
    ensures bytes { Went (run_of text.now) out.old out.new }
    ensures stops { Wrote 0 (ends_of text.now) ends.old ends.new (lines_right text.now) }
{
    let mut rest = text;
    for k in 0..MOST_LINES {
        if rest.is_empty() {
            return Ok(Codes {
                count: k,
                size: out.at,
            });
        }
        let line = first_line(rest);
        if wrong_line(line) {
            return Err(WrongLine(k));
        }
        put_code(out, line);
        ends[k] = out.at as u16;
        rest = after_line(rest);
    }
    Ok(Codes {
        count: MOST_LINES,
        size: out.at,
    })
}

// The codes of a text, one a line: their bytes go to the start of the run and their ends to the start of the ends, up to the first line that is wrong.
pub fn read_codes(text: &[u8], run: &mut [u8], ends: &mut [u16]) -> Result<Codes, WrongLine>
    requires { (most_run ≤ length run.old) × (most_lines ≤ length ends.old) }
    ensures answer { result ≡ codes_of text.now }
    ensures bytes { Wrote 0 (run_of text.now) run.old run.new (length (run_of text.now)) }
    ensures stops { Wrote 0 (ends_of text.now) ends.old ends.new (lines_right text.now) }
{
    let mut out = Pen { buffer: run, at: 0 };
    write_codes(text, &mut out, ends)
}

// How many weights a text has, with blanks between them: they go to the start of the weights, up to the first word that is no number.
pub fn read_weights(text: &[u8], weights: &mut [u16]) -> Result<usize, WrongWord>
    requires { most_words ≤ length weights.old }
    ensures answer { result ≡ weights_of text.now }
    ensures stored { Wrote 0 (values_of text.now) weights.old weights.new (words_right text.now) }
{
    let mut rest = past_blanks(text);
    for k in 0..MOST_WORDS {
        if rest.is_empty() {
            return Ok(k);
        }
        let x = read_number(first_word(rest), MOST_WEIGHT).ok_or(WrongWord(k))?;
        weights[k] = x as u16;
        rest = after_word(rest);
    }
    Ok(MOST_WORDS)
}
