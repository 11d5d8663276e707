// The whole sign: a row for each line.
ghost use Rattle.std.specs.Prelude.{◌≡◌, ◌+◌, ◌≤◌, length};
ghost use Rattle.counting.specs.Wrote.{Wrote};
ghost use Rattle.directory.specs.Sizes.{most_codes};
ghost use Rattle.sign.specs.Keeping.{lists};
ghost use Rattle.storing.specs.Went.{RoomFor, Went};
ghost use Rattle.rows.specs.Rows.{longest_row};
ghost use Rattle.rows.specs.Signs.{row_of, sign_text, longest_sign};

use crate::row::put_row;
use reader::show;
use sign::{ask, heard};
use storing::Pen;

// 1,024 rows of at most 112 bytes.
pub const LONGEST_SIGN: usize = 114_688;

// What a sign shows: a directory file, the moment and the limit that it is asked with, and the lists of levels and times.
#[derive(Clone, Copy)]
pub struct Sign<'a> {
    pub file: &'a [u8],
    pub moment: u32,
    pub limit: u32,
    pub levels: &'a [u8],
    pub times: &'a [u8],
}

// The row of a line.
fn put_line(out: &mut Pen, sign: Sign, line: usize)
    requires { RoomFor longest_row out.old }
    ensures written { Went (row_of sign.entry.file.now sign.entry.moment sign.entry.limit (lists sign.entry.levels.now sign.entry.times.now) line) out.old out.new }
    ensures fits { out.new.at ≤ out.old.at + longest_row }
{
    let code = show(sign.file, line);
    let last = heard(line, sign.levels, sign.times);
    let answer = ask(
        sign.file,
        code,
        sign.moment,
        sign.limit,
        sign.levels,
        sign.times,
    );
    put_row(out, code, last, answer, sign.moment);
}

// Writes the rows of the lines 0 to n - 1 of a file at the start of the text, and returns their length.
pub fn put_rows(text: &mut [u8], sign: Sign, n: usize) -> usize
    requires { (n ≤ most_codes) × (longest_sign ≤ length text.old) }
    ensures { Wrote 0 (sign_text sign.entry.file.now n sign.entry.moment sign.entry.limit (lists sign.entry.levels.now sign.entry.times.now)) text.old text.new result }
{
    let mut out = Pen {
        buffer: text,
        at: 0,
    };
    for line in 0..n {
        put_line(&mut out, sign, line);
    }
    out.at
}
