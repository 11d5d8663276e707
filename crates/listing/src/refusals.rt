// The line of a refusal.
ghost use Rattle.std.specs.Prelude.{◌∷◌, length};
ghost use Rattle.directory.specs.Listing.{blank, decimal};
ghost use Rattle.listing.specs.Text.{refusal_line};
ghost use Rattle.storing.specs.Went.{RoomFor, Went};

use crate::numbers::put_decimal;
use directory::Refused;
use storing::Pen;

// A blank and a number. By hand, as in numbers.rt: the contract gives every byte, and std's `fmt` ensures nothing that a proof can use.
fn put_number(out: &mut Pen, x: usize)
    requires { RoomFor (length (blank ∷ decimal x)) out.old }
    ensures { Went (blank ∷ decimal x) out.old out.new }
{
    out.byte(b' ');
    put_decimal(out, x);
}

// `refused`, a blank, the number of the reason, a blank, the place and a newline.
#[tactic(auto, using(crate::proofs::LineLaws::lengths))]
pub fn put_refused(out: &mut Pen, why: Refused)
    requires { RoomFor (length (refusal_line why)) out.old }
    ensures { Went (refusal_line why) out.old out.new }
{
    let number = why.reason.number() as usize;
    out.bytes(b"refused");
    put_number(out, number);
    put_number(out, why.place);
    out.byte(b'\n');
}
