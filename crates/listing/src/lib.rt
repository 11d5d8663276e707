// The lister's text, written into a buffer that the caller lends.
#![tactic(auto)]

mod numbers; // numbers.rt: numbers in decimal, codes in hex
mod lines; // lines.rt: a listed line
mod refusals; // refusals.rt: the line of a refusal

ghost use Rattle.std.specs.Prelude.{◌≡◌, ◌≤◌, length};
ghost use Rattle.counting.specs.Wrote.{Wrote};
ghost use Rattle.directory.specs.Sizes.{most_codes};
ghost use Rattle.directory.specs.Calls.{listing_of};
ghost use Rattle.storing.specs.Went.{RoomFor, Went};
ghost use Rattle.listing.specs.Text.{lines, longest_listing, Counts};

use crate::lines::put_line;
use crate::refusals::put_refused;
pub use numbers::{put_decimal, put_digit, put_hex, put_pair};
use reader::{open, show};
use storing::Pen;

// 1,024 lines of at most 70 bytes: the room that a listing asks for.
pub const LONGEST_LISTING: usize = 71_680;

// The lines 0 to n - 1 of a file.
fn put_lines(out: &mut Pen, file: &[u8], n: usize)
    requires { (n ≤ most_codes) × (out.old.at ≡ 0) × RoomFor longest_listing out.old }
    ensures written { Went (lines file.now n) out.old out.new }
    ensures fits { out.new.at ≤ longest_listing }
{
    for line in 0..n {
        put_line(out, line, show(file, line));
    }
}

// The listing of a file.
fn put_listing(out: &mut Pen, file: &[u8])
    requires { (out.old.at ≡ 0) × RoomFor longest_listing out.old }
    ensures written { Went (listing_of file.now) out.old out.new }
    ensures fits { out.new.at ≤ longest_listing }
{
    match open(file) {
        Ok(header) => put_lines(out, file, header.n),
        Err(why) => put_refused(out, why),
    }
}

// Writes the listing of a file at the start of the text, and returns its length.
pub fn list(file: &[u8], text: &mut [u8]) -> usize
    requires { longest_listing ≤ length text.old }
    ensures written { Wrote 0 (listing_of file.now) text.old text.new result }
    ensures counted { Counts result text.new }
{
    let mut out = Pen {
        buffer: text,
        at: 0,
    };
    put_listing(&mut out, file);
    out.at
}
