// The waiting queue and the removal list in one array: the removed edges stand before `head`, those that wait from there up to `tail`.
ghost use Rattle.std.specs.Prelude.{◌≡◌, [], ◌+◌, ◌<◌, length};
ghost use Rattle.graph.specs.Peeling.{degree, first_waiting};
ghost use Rattle.counting.specs.Holds.{Holds};
ghost use Rattle.removal.specs.Arrays.{Held, graph_in};
ghost use Rattle.removal.specs.Queue.{Queued, Joinable, Joined, Going, Stepped, Starts, Removed};

use crate::Counts;
use crate::edges::Edges;
use crate::tally::first_of_degree;

// The first queue: every edge, in list order, that has a vertex of degree 1. Returns its length, and marks the edges in it.
// `Held` stays a clause, as in `removal::remove_all`.
pub fn first_queue(edges: Edges, degrees: &[u16], queued: &mut [u16], order: &mut [u16]) -> usize
    requires held { Held (length order.old) edges.r (length degrees.now) edges.list.now }
    requires even { length queued.old ≡ length order.old }
    requires counted { Holds (length degrees.now) (degree (graph_in (length order.old) edges.r (length degrees.now) edges.list.now) []) degrees.now }
    ensures { Queued (length order.old) [] (first_waiting (graph_in (length order.old) edges.entry.r (length degrees.now) edges.entry.list.now)) queued.new order.new result }
{
    let mut t = 0;
    for (e, mark) in queued.iter_mut().enumerate() {
        if first_of_degree(1, e, edges, degrees).is_some() {
            *mark = 1;
            order[t] = e as u16;
            t += 1;
        } else {
            *mark = 0;
        }
    }
    t
}

// Edge f joins the back of the queue, at place t, unless it ever waited. Returns the new end of the queue.
fn join_back(f: usize, t: usize, queued: &mut [u16], order: &mut [u16]) -> usize
    requires { Joinable f t queued.old order.old }
    ensures { Joined f t queued.old order.old queued.new order.new result }
{
    if queued[f] == 0 {
        queued[f] = 1;
        order[t] = f as u16;
        return t + 1;
    }
    t
}

// Removes the front edge: takes it off each of its vertices, and where one edge is left there lets that one join. Returns the new end of the queue.
// The arrays stay parameters, as in `removal::remove_all`.
fn remove_front(
    head: usize,
    tail: usize,
    edges: Edges,
    degrees: &mut [u16],
    sums: &mut [u32],
    queued: &mut [u16],
    order: &mut [u16],
) -> usize
    requires some { head < tail }
    requires going { Going (length order.old) edges.r (length degrees.old) edges.list.now degrees.old sums.old queued.old order.old head tail }
    ensures going { Going (length order.old) edges.entry.r (length degrees.old) edges.entry.list.now degrees.new sums.new queued.new order.new (head + 1) result }
    ensures stepped { Stepped (graph_in (length order.old) edges.entry.r (length degrees.old) edges.entry.list.now) order.old head tail order.new result }
{
    let e = order[head] as usize;
    let mut t = tail;
    for j in 0..edges.r {
        let x = edges.vertex(e, j);
        let degree = &mut degrees[x];
        let sum = &mut sums[x];
        *degree -= 1;
        *sum -= e as u32;
        if *degree == 1 {
            t = join_back(*sum as usize, t, queued, order);
        }
    }
    t
}

// Peels from the first queue, order[..tail]: the removed edges stand in order, first removed first. Counts those that wait after the start and after each step.
// The arrays stay parameters, as in `removal::remove_all`.
pub fn peel(
    tail: usize,
    edges: Edges,
    degrees: &mut [u16],
    sums: &mut [u32],
    queued: &mut [u16],
    order: &mut [u16],
) -> Counts
    requires { Starts (length order.old) edges.r (length degrees.old) edges.list.now degrees.old sums.old queued.old order.old tail }
    ensures { Removed (graph_in (length order.old) edges.entry.r (length degrees.old) edges.entry.list.now) degrees.new sums.new order.new result.left result.most }
{
    let mut head = 0;
    let mut t = tail;
    let mut most = tail;
    // no range or slice to go over: the queue grows while it is emptied
    while head < t {
        let end = remove_front(head, t, edges, degrees, sums, queued, order);
        head += 1;
        most = most.max(end - head);
        t = end;
    }
    let left = order.len() - head;
    Counts { left, most }
}
