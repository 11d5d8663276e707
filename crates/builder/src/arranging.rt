// The graph of the codes, peeled and assigned in arrays of its own.
ghost use Rattle.std.specs.Prelude.{ℕ, List};
ghost use Rattle.directory.specs.Building.{graph};
ghost use Rattle.directory.specs.Kind.{HD};
ghost use Rattle.peeling.specs.Arranging.{Arranged};
ghost use Rattle.builder.specs.Graphs.{checked_with, Arrangeable};

use lists::edges::Checked;
use peeling::arrange;
use records::sizes::{MOST_CODES, MOST_VERTICES};
use removal::Counts;

// The most codes, each with the most vertices.
const MOST_NAMED: usize = 3_072;

// How many codes are left over and how many waited at once at the most; where none is left over, the values, the rank entries and the codes in the order of their lines stand at the starts of their arrays.
// The three arrays that are written stay parameters, as in `removal::remove_all`.
pub(crate) fn arrange_codes(
    checked: Checked,
    values: &mut [u8],
    rank: &mut [u16],
    keys: &mut [u16],
) -> Counts
    requires { Arrangeable checked.naming.r checked.naming.v checked.codes.list.ends.now values.old rank.old keys.old }
    ensures { (buffer : List ℕ) → Arranged (graph HD (checked_with checked.entry buffer)) values.new rank.new keys.new result.left result.most }
{
    let mut edges = [0u16; MOST_NAMED];
    let mut degrees = [0u16; MOST_VERTICES];
    let mut sums = [0u32; MOST_VERTICES];
    // the removal list and, behind it, the waiting queue: 1,024 places, one for each code, since no code waits twice
    let mut order = [0u16; MOST_CODES];
    checked.name_edges(&mut edges);
    arrange(
        checked.codes.list.len(),
        checked.naming.r,
        checked.naming.v,
        &edges,
        &mut degrees,
        &mut sums,
        &mut order,
        values,
        rank,
        keys,
    )
}
