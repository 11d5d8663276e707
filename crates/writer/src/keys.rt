// The KY records, stored. A KY record is the same under every header h.
ghost use Rattle.std.specs.Prelude.{◌≡◌, ℕ, ◌+◌, ◌*◌, ◌<◌, ◌≤◌, length, get_or};
ghost use Rattle.counting.specs.Lists.{each};
ghost use Rattle.directory.specs.Sizes.{Header};
ghost use Rattle.directory.specs.Codes.{code as code_of};
ghost use Rattle.directory.specs.Kind.{HD};
ghost use Rattle.directory.specs.File.{key_head, key_record};
ghost use Rattle.storing.specs.Went.{RoomFor, Went};

use lists::ends::Codes;
use records::offsets::POSITIONS;
use storing::Pen;

// A code, under KY: its length, its bytes, and zero after them. They stand in an array first, since what cannot overlap is copied many bytes at a time.
fn put_key(out: &mut Pen, code: &[u8])
    requires short { length code.now ≤ HD.positions }
    requires room { RoomFor (key_head + HD.positions) out.old }
    ensures written { (h : Header) → Went (key_record HD h code.now) out.old out.new }
    ensures past { out.new.at ≡ out.old.at + (key_head + HD.positions) }
{
    let mut filled = [0u8; POSITIONS];
    filled[..code.len()].copy_from_slice(code);
    out.bytes(b"KY");
    out.byte(code.len() as u8);
    out.bytes(&filled);
}

// The codes in the order of their lines: line l has code keys[l].
pub fn put_keys(out: &mut Pen, codes: Codes, keys: &[u16])
    requires is_code { (l : ℕ) → l < length keys.now → get_or keys.now l 0 < length codes.list.ends.now }
    requires room { RoomFor ((key_head + HD.positions) * length keys.now) out.old }
    ensures { (h : Header) → Went (each (length keys.now) (λ l. key_record HD h (code_of codes.entry.list.run.now codes.entry.list.ends.now (get_or keys.now l 0)))) out.old out.new }
{
    // By lines: the slip that must fail takes the code of that number, and the items alone have none.
    for l in 0..keys.len() {
        put_key(out, codes.list.code(usize::from(keys[l])));
    }
}
