// Peeling, assignment and rank over arrays that the caller lends: from the vertices of the edges to the number left, the values, the rank entries and the order of the edges by line.
#![tactic(auto)]

mod assigning; // assigning.rt: the values
mod ranking; // ranking.rt: the rank entries, and the order of the edges by line

ghost use Rattle.std.specs.Prelude.{◌≡◌, ◌*◌, length};
ghost use Rattle.graph.specs.Assignment.{blocks};
ghost use Rattle.removal.specs.Arrays.{Held, Untallied, graph_in};
ghost use Rattle.peeling.specs.Assigning.{AllRemoved};
ghost use Rattle.peeling.specs.Arranging.{LongEnough, Exact, Lined, Arranged};

use crate::assigning::assign;
use crate::ranking::{BLOCK, rank_vertices};
use removal::edges::Edges;
use removal::{Counts, remove_all};

// Gives each edge its line, where all are removed and stand in order, first removed first: the values, the rank entries and the edges in the order of their lines.
// From here on `degrees` has the marks of the visited vertices, and `sums` for each assigned vertex the edge that lands on it; so the two stay arrays of their own, and the arrays parameters, as in `removal::remove_all`.
fn give_lines(
    edges: Edges,
    order: &[u16],
    degrees: &mut [u16],
    sums: &mut [u32],
    values: &mut [u8],
    rank: &mut [u16],
    keys: &mut [u16],
)
    requires removed { AllRemoved (length order.now) edges.r (length degrees.old) edges.list.now order.now degrees.old sums.old values.old }
    requires even { (length rank.old ≡ blocks (length degrees.old)) × (length keys.old ≡ length order.now) }
    ensures { Lined (graph_in (length order.now) edges.entry.r (length degrees.old) edges.entry.list.now) values.new rank.new keys.new }
{
    assign(edges, order, degrees, sums, values);
    rank_vertices(edges.r, values, sums, rank, keys);
}

// The whole sequence over arrays with an entry for each vertex, each edge and each block. Returns how many edges are left over and how many waited at once at the most; where none is left over, the values, the rank entries and the edges in the order of their lines are written.
// While edges are removed, `keys` has the marks of those that ever waited.
// The arrays stay parameters and `Untallied` a clause, as in `removal::remove_all`.
fn arrange_all(
    edges: Edges,
    degrees: &mut [u16],
    sums: &mut [u32],
    order: &mut [u16],
    values: &mut [u8],
    rank: &mut [u16],
    keys: &mut [u16],
) -> Counts
    requires exact { Exact (length order.old) edges.r (length degrees.old) edges.list.now sums.old values.old rank.old keys.old }
    requires clear { Untallied (length degrees.old) degrees.old sums.old }
    ensures { Arranged (graph_in (length order.old) edges.entry.r (length degrees.old) edges.entry.list.now) values.new rank.new keys.new result.left result.most }
{
    let counts = remove_all(edges, degrees, sums, keys, order);
    if counts.left == 0 {
        give_lines(edges, order, degrees, sums, values, rank, keys);
    }
    counts
}

// The whole sequence for n edges of r vertices, v to a part; the arrays may be longer than needed, and `degrees` and `sums` are lent with 0 in each place. Returns how many edges are left over and how many waited at once at the most; where none is left over, the values, the rank entries and the edges in the order of their lines stand at the starts of their arrays.
// Flat, as the builder has them: here they become one value.
// `Held` and `Untallied` stay clauses, as in `removal::remove_all`.
pub fn arrange(
    n: usize,
    r: usize,
    v: usize,
    edges: &[u16],
    degrees: &mut [u16],
    sums: &mut [u32],
    order: &mut [u16],
    values: &mut [u8],
    rank: &mut [u16],
    keys: &mut [u16],
) -> Counts
    requires held { Held n r (r * v) edges.now }
    requires long { LongEnough n (r * v) degrees.old sums.old order.old values.old rank.old keys.old }
    requires clear { Untallied (r * v) degrees.old sums.old }
    ensures { Arranged (graph_in n r (r * v) edges.now) values.new rank.new keys.new result.left result.most }
{
    let m = r * v;
    let blocks = m.div_ceil(BLOCK);
    arrange_all(
        Edges { r, list: edges },
        &mut degrees[..m],
        &mut sums[..m],
        &mut order[..n],
        &mut values[..m],
        &mut rank[..blocks],
        &mut keys[..n],
    )
}
