// The edges of a graph, in an array that the caller lends.
ghost use Rattle.std.specs.Prelude.{◌≡◌, ◌+◌, ◌*◌, ◌<◌, length};
ghost use Rattle.removal.specs.Arrays.{vertex_at};

// Edges of r vertices each: the list has those of edge 0, then those of edge 1, and so on.
#[derive(Clone, Copy)]
pub struct Edges<'a> {
    pub r: usize,
    pub list: &'a [u16],
}

impl<'a> Edges<'a> {
    // Vertex j of edge e. The loops over an edge go by j and not over a slice of it, which is no plainer: each would keep a line that makes a place of an item, and two of the four are after j itself.
    pub fn vertex(self, e: usize, j: usize) -> usize
        requires { e * self.r + j < length self.list.now }
        ensures { result ≡ vertex_at self.entry.r self.entry.list.now e j }
    {
        self.list[e * self.r + j] as usize
    }
}
