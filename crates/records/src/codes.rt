// The codes of the KY records, compared with a code.
ghost use Rattle.std.specs.Prelude.{◌≡◌, ◌+◌, ◌≤◌, ◌<◌, length, take, drop};
ghost use Rattle.counting.specs.Lists.{same};
ghost use Rattle.counting.specs.Widths.{one_byte};
ghost use Rattle.directory.specs.Kind.{HD};
ghost use Rattle.directory.specs.File.{key_length};
ghost use Rattle.directory.specs.LookingUp.{holds_code};

use crate::numbers::byte;
use crate::offsets::{MARK, code_at, key_at};
use crate::standing::{Code, KeyRecord};

// The length that a KY record gives.
#[tactic(auto, using(crate::proofs::StandingLaws::key_from_lem), unfolding(directory::specs::File::key_length))]
pub fn key_length(key: KeyRecord) -> usize
    ensures { (result ≡ key_length HD key.entry.header key.entry.file.now key.entry.line) × (result < one_byte) }
{
    byte(key.file, key_at(key.header, key.line) + MARK)
}

// So many bytes are compared at once.
const AT_ONCE: usize = 8;

// Whether a part is a code, which has as many bytes: eight after eight, so that the first eight that differ decide, and then the rest. `==` of two slices looks at all bytes where the first four are alike.
#[inline(always)]
#[tactic(auto, using(crate::proofs::ComparingLaws::pointwise_same))]
fn same_by_eights(part: &[u8], code: &[u8]) -> bool
    requires { length part.now ≡ length code.now }
    ensures { result ≡ same part.now code.now }
{
    let mut part = part;
    let mut code = code;
    while let (Some((eight, part_rest)), Some((code_eight, code_rest))) = (
        part.split_first_chunk::<AT_ONCE>(),
        code.split_first_chunk::<AT_ONCE>(),
    ) {
        if eight != code_eight {
            return false;
        }
        part = part_rest;
        code = code_rest;
    }
    part == code
}

// Whether the bytes of the file from an offset on are those of the code. The part is taken here, and so the clause asks that it lies within the file.
// The first eight are looked at here, inlined: a refused list compares each pair of its codes, and most pairs differ there.
#[inline(always)]
#[tactic(auto, using(crate::proofs::ComparingLaws::pointwise_same))]
pub fn same_bytes(file: &[u8], at: usize, code: &[u8]) -> bool
    requires { at + length code.now ≤ length file.now }
    ensures { result ≡ same (take (length code.now) (drop at file.now)) code.now }
{
    let part = &file[at..at + code.len()];
    let (Some(eight), Some(code_eight)) = (
        part.first_chunk::<AT_ONCE>(),
        code.first_chunk::<AT_ONCE>(),
    ) else {
        return part == code;
    };
    eight == code_eight && same_by_eights(part, code)
}

// Whether a KY record has the code's length and bytes.
#[tactic(auto, using(crate::proofs::StandingLaws::code_from_lem), unfolding(directory::specs::LookingUp::holds_code, directory::specs::File::stored_code))]
pub fn holds_code(key: KeyRecord, code: Code) -> bool
    ensures { result ≡ holds_code HD key.entry.header key.entry.file.now code.entry.bytes.now key.entry.line }
{
    key_length(key) == code.bytes.len()
        && same_bytes(key.file, code_at(key.header, key.line), code.bytes)
}
