// Per vertex the degree and the sum of the indices of the edges on it: at degree 1 the sum is the one edge left.
ghost use Rattle.std.specs.Prelude.{◌≡◌, [], eqb, length, get_or};
ghost use Rattle.counting.specs.Below.{FindsLowest};
ghost use Rattle.graph.specs.Peeling.{unremoved};
ghost use Rattle.removal.specs.Arrays.{Held, graph_in, vertex_at, Vertices, Untallied, Tallied};
ghost use Rattle.removal.specs.Linking.{Room, Added};

use crate::edges::Edges;

// Puts edge e on its r vertices.
pub fn link(e: usize, edges: Edges, degrees: &mut [u16], sums: &mut [u32])
    requires { Room edges.r e edges.list.now degrees.old sums.old }
    ensures { Added edges.entry.r e edges.entry.list.now edges.entry.r degrees.old sums.old degrees.new sums.new }
{
    for j in 0..edges.r {
        let x = edges.vertex(e, j);
        degrees[x] += 1;
        sums[x] += e as u32;
    }
}

// Puts all n edges on their vertices, where none is on any of them.
// `Held` and `Untallied` stay clauses, as in `removal::remove_all`.
pub fn tally(n: usize, edges: Edges, degrees: &mut [u16], sums: &mut [u32])
    requires held { Held n edges.r (length degrees.old) edges.list.now }
    requires even { length sums.old ≡ length degrees.old }
    requires clear { Untallied (length degrees.old) degrees.old sums.old }
    ensures { Tallied (graph_in n edges.entry.r (length degrees.old) edges.entry.list.now) (unremoved []) degrees.new sums.new }
{
    for e in 0..n {
        link(e, edges, degrees, sums);
    }
}

// The lowest j whose vertex has this degree. By `for`: with `(0..edges.r).find(..)` the proof was tried and didn't close, since the test asks that j is below r.
pub fn first_of_degree(degree: u16, e: usize, edges: Edges, degrees: &[u16]) -> Option<usize>
    requires { Vertices edges.r e edges.list.now (length degrees.now) }
    ensures { FindsLowest edges.entry.r (λ i. eqb (get_or degrees.now (vertex_at edges.entry.r edges.entry.list.now e i) 0) degree) result }
{
    for j in 0..edges.r {
        let x = edges.vertex(e, j);
        if degrees[x] == degree {
            return Some(j);
        }
    }
    None
}
