// Numbers in decimal and codes in lowercase hex, in ASCII.
// By hand, and no `Display`: each contract gives every byte, by `directory.specs.Listing`, and std's `fmt` ensures nothing that a proof can use.
ghost use Rattle.std.specs.Prelude.{◌≡◌, [], ◌∷◌, ◌+◌, ◌/◌, ◌%◌, ◌<◌, ◌≤◌, length};
ghost use Rattle.directory.specs.Listing.{digit as digitOf, decimal, hex};
ghost use Rattle.storing.specs.Went.{RoomFor, Went};

use storing::Pen;

const TEN: usize = 10;

const SIXTEEN: usize = 16;

// A digit in lowercase.
#[tactic(auto, using(std::proofs::lemmas::Bool::Decides::nat_tests), unfolding(directory::specs::Listing::digit))]
fn digit(d: usize) -> u8
    requires { d < 16 }
    ensures { result ≡ digitOf d }
{
    if d < TEN {
        b'0' + d as u8
    } else {
        b'a' + (d - TEN) as u8
    }
}

pub fn put_digit(out: &mut Pen, d: usize)
    requires { (d < 16) × RoomFor 1 out.old }
    ensures { Went (digitOf d ∷ []) out.old out.new }
{
    out.byte(digit(d));
}

// The digits before the last are those of x / 10.
#[tactic(auto, using(crate::proofs::TextLaws::lengths))]
pub fn put_decimal(out: &mut Pen, x: usize)
    requires { RoomFor (length (decimal x)) out.old }
    ensures { Went (decimal x) out.old out.new }
{
    if x < TEN {
        put_digit(out, x);
    } else {
        put_decimal(out, x / TEN);
        put_digit(out, x % TEN);
    }
}

// A number in two digits of a base.
pub fn put_pair(out: &mut Pen, x: usize, base: usize)
    requires { (0 < base) × (base ≤ 16) × (x / base < 16) × RoomFor 2 out.old }
    ensures { Went (digitOf (x / base) ∷ digitOf (x % base) ∷ []) out.old out.new }
{
    put_digit(out, x / base);
    put_digit(out, x % base);
}

#[tactic(auto, using(crate::proofs::TextLaws::lengths))]
pub fn put_hex(out: &mut Pen, code: &[u8])
    requires { RoomFor (length (hex code.now)) out.old }
    ensures { Went (hex code.now) out.old out.new }
{
    for b in code {
        put_pair(out, *b as usize, SIXTEEN);
    }
}
