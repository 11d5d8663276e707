// The marks after the first, in file order.
ghost use Rattle.std.specs.Prelude.{◌≡◌, [], ◌∷◌, ◌+◌, ◌<◌, length};
ghost use Rattle.std.specs.List.{range_with_len, find};
ghost use Rattle.directory.specs.Kind.{HD};
ghost use Rattle.directory.specs.Opening.{wrong_mark, key_unmarked, mark_refusals};
ghost use Rattle.directory.specs.Refusals.{ok_unless};

use directory::{Reason, Refused};
use records::numbers::{GV, KY, RK, WT, marked};
use records::offsets::{HEADER, key_at, ranks_at, values_at};
use records::standing::Directory;

// Whether a mark stands at an offset, or the refusal of a wrong one. By an offset, as document 01 places the marks.
#[tactic(auto, unfolding(directory::specs::Refusals::first, directory::specs::Opening::wrong_mark))]
fn mark(directory: Directory, at: usize, letters: (u8, u8)) -> Result<(), Refused>
    requires { at + 1 < length directory.file.now }
    ensures { result ≡ ok_unless tt (wrong_mark HD directory.entry.header directory.entry.file.now at (letters.0, letters.1) ∷ []) }
{
    if marked(directory.file, at, letters) {
        Ok(())
    } else {
        Err(Reason::WrongMark.at(at))
    }
}

// Whether the KY record of line l has another mark.
#[tactic(auto, using(records::proofs::FramedLaws::framed_keyed, records::proofs::StandingLaws::key_from_lem), unfolding(directory::specs::Opening::key_unmarked))]
fn key_unmarked(directory: Directory, l: usize) -> bool
    requires { l < directory.header.n }
    ensures { result ≡ key_unmarked HD directory.entry.header directory.entry.file.now l }
{
    !marked(directory.file, key_at(directory.header, l), KY)
}

// The lowest line whose KY record has another mark.
fn unmarked_key(directory: Directory) -> Option<usize>
    ensures { result ≡ find (key_unmarked HD directory.entry.header directory.entry.file.now) (range_with_len 0 directory.entry.header.n) }
{
    (0..directory.header.n).find(|l| key_unmarked(directory, *l))
}

// The first wrong mark, if there is one.
#[tactic(auto, using(records::proofs::FramedLaws::framed_tabled))]
pub fn marks(directory: Directory) -> Result<(), Refused>
    ensures { result ≡ ok_unless tt (mark_refusals HD directory.entry.header directory.entry.file.now) }
{
    let header = directory.header;
    mark(directory, HEADER, WT)?;
    mark(directory, values_at(header), GV)?;
    mark(directory, ranks_at(header), RK)?;
    match unmarked_key(directory) {
        Some(l) => Err(Reason::WrongMark.at(key_at(header, l))),
        None => Ok(()),
    }
}
