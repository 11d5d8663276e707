// The KY records: each length and filling, and whether each stored code leads to its line.
ghost use Rattle.std.specs.Prelude.{◌≡◌, not, ℕ, ◌<◌, eqb};
ghost use Rattle.std.specs.List.{range_with_len, find, list_any};
ghost use Rattle.directory.specs.Kind.{HD};
ghost use Rattle.directory.specs.Whole.{Key};
ghost use Rattle.directory.specs.Opening.{key_wrong, astray, key_refusals};
ghost use Rattle.directory.specs.Refusals.{ok_unless};

use directory::{Lead, Reason, Refused};
use records::codes::key_length;
use records::lead;
use records::offsets::{POSITIONS, code_at};
use records::standing::{Code, Directory};

// Whether one of the bytes of the filling is not zero.
fn filling_set(filling: &[u8]) -> bool
    ensures { result ≡ list_any (λ b. not (eqb b 0)) filling.now }
{
    filling.iter().any(|b| *b != 0)
}

// Whether the KY record of line l has a length of 0 or over 32, or filling that is not zero.
// The test of the length is that of reader::sizes::wrong_length, which stands above this crate.
#[tactic(auto, unfolding(directory::specs::Opening::key_wrong, directory::specs::Codes::wrong_length))]
fn key_wrong(directory: Directory, l: usize) -> bool
    requires { l < directory.header.n }
    ensures { result ≡ key_wrong HD directory.entry.header directory.entry.file.now l }
{
    let size = key_length(directory.key(l));
    let after = code_at(directory.header, l) + size;
    size == 0 || POSITIONS < size || filling_set(&directory.file[after..after + (POSITIONS - size)])
}

// The lowest line whose KY record is wrong.
fn wrong_key(directory: Directory) -> Option<usize>
    ensures { result ≡ find (key_wrong HD directory.entry.header directory.entry.file.now) (range_with_len 0 directory.entry.header.n) }
{
    (0..directory.header.n).find(|l| key_wrong(directory, *l))
}

// Whether the code stored at line l leads elsewhere.
#[tactic(auto, using(records::proofs::StandingLaws::code_from_lem), unfolding(directory::specs::Opening::astray, directory::specs::File::stored_code))]
fn strays(directory: Directory, l: usize) -> bool
    requires line { l < directory.header.n }
    requires key { Key HD directory.header directory.file.now l }
    ensures { result ≡ astray HD directory.entry.header directory.entry.file.now l }
{
    let Directory { file, header } = directory;
    let from = code_at(header, l);
    let to = from + key_length(directory.key(l));
    let code = Code {
        bytes: &file[from..to],
    };
    match lead(directory.tables(), code) {
        Lead::ToLine(k) => k != l,
        _ => true,
    }
}

// The lowest line whose code leads elsewhere.
fn stray_code(directory: Directory) -> Option<usize>
    requires { (l : ℕ) → l < directory.header.n → Key HD directory.header directory.file.now l }
    ensures { result ≡ find (astray HD directory.entry.header directory.entry.file.now) (range_with_len 0 directory.entry.header.n) }
{
    (0..directory.header.n).find(|l| strays(directory, *l))
}

// The first wrong KY record or stray code, if there is one.
pub fn keys(directory: Directory) -> Result<(), Refused>
    ensures { result ≡ ok_unless tt (key_refusals HD directory.entry.header directory.entry.file.now) }
{
    if let Some(wrong) = wrong_key(directory) {
        return Err(Reason::WrongKey.at(wrong));
    }
    match stray_code(directory) {
        Some(stray) => Err(Reason::StrayCode.at(stray)),
        None => Ok(()),
    }
}
