// A text filled with blanks to a width.
ghost use Rattle.std.specs.Prelude.{length};
ghost use Rattle.rows.specs.Filling.{blanks, filled};
ghost use Rattle.storing.specs.Went.{RoomFor, Went};

use crate::Side;
use storing::Pen;

fn put_blanks(out: &mut Pen, count: usize)
    requires { RoomFor count out.old }
    ensures { Went (blanks count) out.old out.new }
{
    let to = out.at + count;
    out.buffer[out.at..to].fill(b' ');
    out.at = to;
}

#[tactic(auto, using(crate::proofs::FillingLaws::lengths))]
pub(crate) fn put_filled(out: &mut Pen, side: Side, width: usize, field: &[u8])
    requires { RoomFor (length (filled side width field.now)) out.old }
    ensures { Went (filled side width field.now) out.old out.new }
{
    let count = width.saturating_sub(field.len());
    match side {
        Side::Left => {
            put_blanks(out, count);
            out.bytes(field);
        }
        Side::Right => {
            out.bytes(field);
            put_blanks(out, count);
        }
    }
}
