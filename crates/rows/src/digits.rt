// Numbers of two and of three digits, zeros in front of them too.
ghost use Rattle.std.specs.Prelude.{◌<◌};
ghost use Rattle.rows.specs.Values.{two_digits, three_digits};
ghost use Rattle.storing.specs.Went.{RoomFor, Went};

use listing::{put_digit, put_pair};
use storing::Pen;

const TEN: usize = 10;

const HUNDRED: usize = 100;

#[tactic(auto, unfolding(crate::specs::Values::two_digits))]
pub(crate) fn put_two(out: &mut Pen, x: usize)
    requires { (x < 100) × RoomFor 2 out.old }
    ensures { Went (two_digits x) out.old out.new }
{
    put_pair(out, x, TEN);
}

#[tactic(auto, unfolding(crate::specs::Values::three_digits))]
pub(crate) fn put_three(out: &mut Pen, x: usize)
    requires { (x < 1000) × RoomFor 3 out.old }
    ensures { Went (three_digits x) out.old out.new }
{
    put_digit(out, x / HUNDRED);
    put_two(out, x % HUNDRED);
}
