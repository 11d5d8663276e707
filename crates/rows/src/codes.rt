// The column of codes: a code as it stands where it can be read so, and otherwise in hex.
ghost use Rattle.std.specs.Prelude.{◌≡◌, ◌+◌, ◌≤◌, ◌<◌, length};
ghost use Rattle.directory.specs.Kind.{HD};
ghost use Rattle.storing.specs.Went.{RoomFor, Went};
ghost use Rattle.rows.specs.Rows.{visible as isVisible, lone as is_lone, readable as isReadable, plain as is_plain, code_text, code_column, longest_code};

use crate::Side;
use crate::filling::put_filled;
use beginnings::first;
use listing::put_hex;
use storing::Pen;
use texts::in_hex;

// The width of the column, and the longest text in it: `0x` and 32 pairs of digits.
const WIDTH: usize = 32;

const LONGEST_CODE: usize = 66;

// Whether a byte is a character that can be seen.
fn visible(b: u8) -> bool
    ensures { result ≡ isVisible b }
{
    matches!(b, b'!'..=b'~')
}

// Whether there are bytes on both sides of a place, and no blank before it.
#[tactic(auto, using(std::proofs::lemmas::Bool::Decides::nat_tests), unfolding(crate::specs::Rows::lone))]
fn lone(code: &[u8], i: usize) -> bool
    requires { i < length code.now }
    ensures { result ≡ is_lone code.now i }
{
    0 < i && i + 1 < code.len() && code[i - 1] != b' '
}

// Whether a byte can be seen, or is one blank between others.
#[tactic(auto, using(std::proofs::lemmas::Bool::Decides::nat_tests), unfolding(crate::specs::Rows::readable))]
fn readable(code: &[u8], i: usize) -> bool
    requires { i < length code.now }
    ensures { result ≡ isReadable code.now i }
{
    visible(code[i]) || code[i] == b' ' && lone(code, i)
}

// Whether a code is shown as it stands: all its bytes can be read, and it is not taken for hex.
fn plain(code: &[u8]) -> bool
    ensures { result ≡ is_plain code.now }
{
    !in_hex(code) && (0..code.len()).all(|i| readable(code, i))
}

#[tactic(auto, using(crate::proofs::RowLaws::coded))]
fn put_code(out: &mut Pen, code: &[u8])
    requires { RoomFor (length (code_text code.now)) out.old }
    ensures { Went (code_text code.now) out.old out.new }
{
    if plain(code) {
        out.bytes(code);
    } else {
        out.bytes(b"0x");
        put_hex(out, code);
    }
}

pub(crate) fn put_code_column(out: &mut Pen, code: &[u8])
    requires { (length code.now ≤ HD.positions) × RoomFor longest_code out.old }
    ensures written { Went (code_column code.now) out.old out.new }
    ensures fits { out.new.at ≤ out.old.at + longest_code }
{
    let mut field = [0u8; LONGEST_CODE];
    let mut shown = Pen {
        buffer: &mut field,
        at: 0,
    };
    put_code(&mut shown, code);
    let size = shown.at;
    let text = &*shown.buffer;
    put_filled(out, Side::Right, WIDTH, first(text, size));
}
