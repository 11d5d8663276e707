// The code of a line.
ghost use Rattle.std.specs.Prelude.{◌≡◌, true, false, length, MatchOption};
ghost use Rattle.counting.specs.Wrote.{Wrote};
ghost use Rattle.storing.specs.Went.{RoomFor, Went};
ghost use Rattle.texts.specs.Codes.{in_hex, hex_digits, wrong_line, most_kept, kept, code_read, code_stored};

use crate::hex::{put_pairs, wrong_pairs};
use beginnings::first;
use storing::Pen;

// One more than the most bytes of a code.
pub const MOST_KEPT: usize = 33;

// What follows `0x` in a line that starts with it.
#[tactic(auto, using(crate::proofs::CodeLaws::sign_stripped))]
fn hex_digits(line: &[u8]) -> Option<&[u8]>
    ensures { MatchOption result (in_hex line.now ≡ false) (λ digits. (in_hex line.now ≡ true) × (digits.now ≡ hex_digits line.now)) }
{
    line.strip_prefix(b"0x")
}

// Whether a line starts with `0x`.
pub fn in_hex(line: &[u8]) -> bool
    ensures { result ≡ in_hex line.now }
{
    hex_digits(line).is_some()
}

// Whether it does, and other than pairs of hex digits follow.
#[tactic(auto, using(crate::proofs::CodeLaws::wrong_in_hex, crate::proofs::CodeLaws::wrong_plain))]
pub(crate) fn wrong_line(line: &[u8]) -> bool
    ensures { result ≡ wrong_line line.now }
{
    match hex_digits(line) {
        Some(digits) => wrong_pairs(digits),
        None => false,
    }
}

// Writes what is kept of the code of a line.
pub(crate) fn put_code(out: &mut Pen, line: &[u8])
    requires right { wrong_line line.now ≡ false }
    requires room { RoomFor most_kept out.old }
    ensures { Went (kept line.now) out.old out.new }
{
    match hex_digits(line) {
        Some(digits) => put_pairs(out, digits, (digits.len() / 2).min(MOST_KEPT)),
        None => out.bytes(first(line, MOST_KEPT)),
    }
}

// Puts what is kept of the code of a line at the start of an array and gives its length back, or puts nothing where the line is wrong.
pub fn read_code(line: &[u8], code: &mut [u8; MOST_KEPT]) -> Option<usize>
    ensures answer { result ≡ code_read line.now }
    ensures stored { Wrote 0 (code_stored line.now) code.old code.new (length (code_stored line.now)) }
{
    if wrong_line(line) {
        return None;
    }
    let mut pen = Pen {
        buffer: code,
        at: 0,
    };
    put_code(&mut pen, line);
    Some(pen.at)
}
