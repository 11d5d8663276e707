// The sums of a code, all parts in one pass over its bytes, wherever the weights stand, and the vertices that they give.
ghost use Rattle.std.specs.Prelude.{◌≡◌, ℕ, ◌+◌, ◌-◌, ◌*◌, ◌/◌, ◌%◌, ◌≤◌, ◌<◌, length};
ghost use Rattle.counting.specs.Widths.{two_bytes};
ghost use Rattle.counting.specs.Holds.{Holds};
ghost use Rattle.directory.specs.Kind.{HD, vertex as vertex_of};
ghost use Rattle.directory.specs.Sizes.{most_vertices};
ghost use Rattle.records.specs.Standing.{most_bytes, weight_of, values_from, Room};
ghost use Rattle.records.specs.Summing.{Weighed, Summed};

use crate::Sums;
use crate::numbers::two;
use crate::offsets::{HEADER, MARK, MOST_PARTS, NUMBER, POSITIONS};
use crate::sizes::FEWEST_PARTS;
use crate::standing::Code;

// Weights, part after part, as many of them as a part has positions.
pub trait Weights {
    // How many there are, and which each is.
    ghost count: { Self → ℕ };

    ghost weight_at: { Self → ℕ → ℕ };

    // Weight i of part j.
    fn weight(&self, j: usize, i: usize) -> u32
        requires { (i < most_bytes) × (j < 3) × (most_bytes * (j + 1) ≤ count self.now) }
        ensures { (result ≡ weight_at self.now (most_bytes * j + i)) × (result < two_bytes) };
}

// The weights that are stored in a file, two bytes each.
#[derive(Clone, Copy)]
pub struct Stored<'a> {
    pub file: &'a [u8],
}

impl Weights for Stored<'_> {
    ghost count = { λ s. (length s.file.now - values_from 0) / 2 };

    ghost weight_at = { λ s. weight_of s.file.now };

    fn weight(&self, j: usize, i: usize) -> u32 {
        two(self.file, HEADER + (MARK + NUMBER * (POSITIONS * j + i))) as u32
    }
}

// The sums of a code. The largest is 534,765,600, so that 32 bits hold it.
fn code_sums<W: Weights>(weights: &W, r: usize, code: &[u8]) -> Sums
    requires { Weighed r (most_bytes * r) (W.count weights.now) code.now }
    ensures { Summed (W.weight_at weights.now) code.now r result }
{
    let mut sums = Sums {
        first: 0,
        second: 0,
        third: 0,
    };
    for (i, byte) in code.iter().enumerate() {
        let b = u32::from(*byte);
        sums.first += b * weights.weight(0, i);
        sums.second += b * weights.weight(1, i);
        if FEWEST_PARTS < r {
            sums.third += b * weights.weight(2, i);
        }
    }
    sums
}

// The vertex in part j that a sum gives.
pub fn vertex(sum: u32, v: usize, j: usize) -> usize
    requires { (1 ≤ v) × (v ≤ most_vertices) × (j < 3) }
    ensures { result ≡ sum % v + j * v }
{
    sum as usize % v + j * v
}

// The vertices of a code, as many as there are parts. Where there are two, the third is 0.
// `Room` stays a clause: `Tables` and `Naming` each know it of their own r and v, and a type that both could lend would say no more.
pub fn name_vertices<W: Weights>(weights: &W, r: usize, v: usize, code: Code) -> [usize; MOST_PARTS]
    requires sizes { Room r v }
    requires weighed { most_bytes * r ≤ W.count weights.now }
    ensures { Holds r (vertex_of HD v (W.weight_at weights.now) code.entry.bytes.now) result }
{
    let sums = code_sums(weights, r, code.bytes);
    let third = if FEWEST_PARTS < r {
        vertex(sums.third, v, 2)
    } else {
        0
    };
    [vertex(sums.first, v, 0), vertex(sums.second, v, 1), third]
}
