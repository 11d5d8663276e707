// A listed line.
ghost use Rattle.std.specs.Prelude.{length};
ghost use Rattle.directory.specs.Listing.{listed_line};
ghost use Rattle.storing.specs.Went.{RoomFor, Went};

use crate::numbers::{put_decimal, put_hex};
use storing::Pen;

// A line number, one blank, the code in lowercase hex and a newline.
#[tactic(auto, using(crate::proofs::LineLaws::lengths))]
pub fn put_line(out: &mut Pen, line: usize, code: &[u8])
    requires { RoomFor (length (listed_line line code.now)) out.old }
    ensures { Went (listed_line line code.now) out.old out.new }
{
    put_decimal(out, line);
    out.byte(b' ');
    put_hex(out, code);
    out.byte(b'\n');
}
