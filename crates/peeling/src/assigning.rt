// The values, from the end of the removal list to its start. No edge is left on any vertex by then, so the degrees, all 0, become the marks of the visited vertices.
ghost use Rattle.std.specs.Prelude.{◌≡◌, length};
ghost use Rattle.removal.specs.Arrays.{graph_in};
ghost use Rattle.peeling.specs.Assigning.{Visitable, Visited, Free, Given, AllRemoved, Assigned};

use removal::edges::Edges;

// What is seen on the way through the vertices of an edge: the smallest j whose vertex was unvisited, or r, and the sum of the values.
// A number and no Option: where assign_edge reads it, its clause `Free` says that some vertex is unvisited, so an Option would have a case that never comes.
#[derive(Drop)]
struct Seen {
    first: usize,
    total: usize,
}

// Visits the vertices of edge e, from the last to the first.
fn visit(e: usize, edges: Edges, visited: &mut [u16], values: &[u8]) -> Seen
    requires { Visitable edges.r e edges.list.now visited.old values.now }
    ensures { Visited edges.entry.r e edges.entry.list.now visited.old values.now visited.new result.first result.total }
{
    let mut first = edges.r;
    let mut total = 0;
    for j in (0..edges.r).rev() {
        let x = edges.vertex(e, j);
        if visited[x] == 0 {
            first = j;
        }
        visited[x] = 1;
        total += values[x] as usize;
    }
    Seen { first, total }
}

// Edge e gives its smallest unvisited vertex the value with which it lands there, and is noted there. `landed` has for each assigned vertex the edge that lands on it.
fn assign_edge(e: usize, edges: Edges, visited: &mut [u16], landed: &mut [u32], values: &mut [u8])
    requires { Free edges.r e edges.list.now visited.old landed.old values.old }
    ensures { Given edges.entry.r e edges.entry.list.now visited.old landed.old values.old visited.new landed.new values.new }
{
    let r = edges.r;
    let seen = visit(e, edges, visited, values);
    let x = edges.vertex(e, seen.first);
    values[x] = ((seen.first + (r * r - seen.total)) % r) as u8;
    landed[x] = e as u32;
}

// The values of all vertices, where all edges are removed and stand in order, first removed first.
pub fn assign(
    edges: Edges,
    order: &[u16],
    visited: &mut [u16],
    landed: &mut [u32],
    values: &mut [u8],
)
    requires { AllRemoved (length order.now) edges.r (length visited.old) edges.list.now order.now visited.old landed.old values.old }
    ensures { Assigned (graph_in (length order.now) edges.entry.r (length visited.old) edges.entry.list.now) landed.new values.new }
{
    values.fill(edges.r as u8);
    // By places: the slip of document 01 that must fail takes the one at the other end, and the items alone have none.
    for k in (0..order.len()).rev() {
        assign_edge(order[k] as usize, edges, visited, landed, values);
    }
}
