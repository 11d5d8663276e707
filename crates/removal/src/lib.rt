// Peeling over arrays that the caller lends: degrees and index sums, the first queue, and the edges removed in their order.
#![tactic(auto)]

pub mod edges; // edges.rt: the vertices of an edge
pub mod tally; // tally.rt: degrees and index sums
mod queue; // queue.rt: the first queue, and the peeling

ghost use Rattle.std.specs.Prelude.{◌≡◌, length};
ghost use Rattle.removal.specs.Arrays.{Held, Untallied, graph_in};
ghost use Rattle.removal.specs.Queue.{Removed};

use crate::edges::Edges;
use crate::queue::{first_queue, peel};
use crate::tally::tally;

// How many edges peeling leaves over, and how many waited at once at the most.
#[derive(Clone, Copy)]
pub struct Counts {
    pub left: usize,
    pub most: usize,
}

// Peels all edges that can be removed: they stand in order, first removed first. `queued` marks each edge that ever waited. `degrees` and `sums` are lent with 0 in each place.
// The four arrays stay parameters: a struct of them would have to promise in each contract that every field keeps its reference and its length. And no array of pairs: peeling writes other things over `degrees` and over `sums`. So `Held` and `Untallied`, which speak of these arrays together, stay clauses.
pub fn remove_all(
    edges: Edges,
    degrees: &mut [u16],
    sums: &mut [u32],
    queued: &mut [u16],
    order: &mut [u16],
) -> Counts
    requires held { Held (length order.old) edges.r (length degrees.old) edges.list.now }
    requires even { (length sums.old ≡ length degrees.old) × (length queued.old ≡ length order.old) }
    requires clear { Untallied (length degrees.old) degrees.old sums.old }
    ensures { Removed (graph_in (length order.old) edges.entry.r (length degrees.old) edges.entry.list.now) degrees.new sums.new order.new result.left result.most }
{
    tally(order.len(), edges, degrees, sums);
    let tail = first_queue(edges, degrees, queued, order);
    peel(tail, edges, degrees, sums, queued, order)
}
