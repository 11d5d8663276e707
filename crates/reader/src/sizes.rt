// The numbers of a header, and the length of a file.
ghost use Rattle.std.specs.Prelude.{◌≡◌};
ghost use Rattle.directory.specs.Sizes.{header_allowed};
ghost use Rattle.directory.specs.Codes.{wrong_length};
ghost use Rattle.directory.specs.Kind.{HD};
ghost use Rattle.directory.specs.Calls.{length_of};

use directory::Header;
use records::offsets::{POSITIONS, key_at};
use records::sizes::{arity_allowed, codes_allowed, part_allowed};

// Whether the numbers of a header are within the sizes.
pub fn allowed(header: Header) -> bool
    ensures { result ≡ header_allowed header }
{
    codes_allowed(header.n) && arity_allowed(header.r) && part_allowed(header.r, header.v)
}

// The length of the file for n, r and v, and 0, which no file has, where the sizes do not allow them.
pub fn length(n: usize, r: usize, v: usize) -> usize
    ensures { result ≡ length_of n r v }
{
    let header = Header { n, r, v };
    if allowed(header) {
        key_at(header, n)
    } else {
        0
    }
}

// Whether no code has so many bytes.
#[tactic(auto, unfolding(directory::specs::Codes::wrong_length))]
pub(crate) fn wrong_length(size: usize) -> bool
    ensures { result ≡ wrong_length HD.positions size }
{
    size == 0 || POSITIONS < size
}
