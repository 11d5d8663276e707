// The sizes that document 01 allows.
ghost use Rattle.std.specs.Prelude.{◌≡◌, true};
ghost use Rattle.directory.specs.Sizes.{arity_allowed, part_allowed, codes_allowed};

use crate::offsets::MOST_PARTS;

// Each directory has so many parts at least.
pub const FEWEST_PARTS: usize = 2;

pub const MOST_VERTICES: usize = 4096;

pub const MOST_CODES: usize = 1024;

// Whether r is an arity: 2 or 3.
#[tactic(auto, unfolding(directory::specs::Sizes::arity_allowed))]
pub fn arity_allowed(r: usize) -> bool
    ensures { result ≡ arity_allowed r }
{
    (FEWEST_PARTS..=MOST_PARTS).contains(&r)
}

// Whether v is a part size. It is looked at alone first, so that the product fits.
#[tactic(auto, unfolding(directory::specs::Sizes::part_allowed, directory::specs::Sizes::arity_allowed))]
pub fn part_allowed(r: usize, v: usize) -> bool
    requires { arity_allowed r ≡ true }
    ensures { result ≡ part_allowed r v }
{
    0 < v && v <= MOST_VERTICES && r * v <= MOST_VERTICES
}

// Whether there may be n codes.
#[tactic(auto, unfolding(directory::specs::Sizes::codes_allowed))]
pub fn codes_allowed(n: usize) -> bool
    ensures { result ≡ codes_allowed n }
{
    n <= MOST_CODES
}
