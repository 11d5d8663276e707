// The vertices of all codes, by the lent weights.
ghost use Rattle.std.specs.Prelude.{◌≡◌, ◌+◌, ◌*◌, ◌≤◌, ◌<◌, length, get_or};
ghost use Rattle.counting.specs.Widths.{two_bytes};
ghost use Rattle.directory.specs.Codes.{code as code_of};
ghost use Rattle.directory.specs.Kind.{HD, vertex as vertex_of};
ghost use Rattle.directory.specs.Sizes.{most_codes};
ghost use Rattle.records.specs.Standing.{most_bytes, Room};
ghost use Rattle.lists.specs.Listed.{Named};
ghost use Rattle.lists.specs.Naming.{Noted};

use crate::ends::Codes;
use records::adding::{self, Weights};
use records::offsets::POSITIONS;
use records::standing::Code;

// By what a code gets its vertices: r parts of v vertices each, and 32 weights for each part.
#[derive(Clone, Copy)]
pub struct Naming<'a> {
    pub r: usize,
    pub v: usize,
    pub weights: &'a [u16],
    pub ghost sizes: { Room r v },
    pub ghost weighed: { length weights.now ≡ most_bytes * r },
}

impl Weights for Naming<'_> {
    ghost count = { λ s. length s.weights.now };

    ghost weight_at = { λ s i. get_or s.weights.now i 0 };

    fn weight(&self, j: usize, i: usize) -> u32 {
        u32::from(self.weights[POSITIONS * j + i])
    }
}

impl Naming<'_> {
    // Writes the r vertices of a code from `at` on.
    // At a place of the whole array: with a slice of r places `Noted at r ..` would still have to be said of the whole in `name_edges`, and no clause would be plainer.
    fn name_vertices(self, code: Code, at: usize, edges: &mut [u16])
        requires { at + self.r ≤ length edges.old }
        ensures { Noted at self.entry.r (vertex_of HD self.entry.v (λ i. get_or self.entry.weights.now i 0) code.entry.bytes.now) edges.old edges.new }
    {
        let vertices = adding::name_vertices(&self, self.r, self.v, code);
        for (j, vertex) in vertices[..self.r].iter().enumerate() {
            edges[at + j] = *vertex as u16;
        }
    }
}

// A code list of at most 1,024 codes, with what gives them their vertices: the refusals 1 to 5 do not apply to it, but for a run that is longer than its codes.
#[derive(Clone, Copy)]
pub struct Checked<'a> {
    pub codes: Codes<'a>,
    pub naming: Naming<'a>,
    pub ghost few: { length codes.list.ends.now ≤ most_codes },
}

impl Checked<'_> {
    // Writes the r vertices of each code, those of code k from k·r on.
    pub fn name_edges(self, edges: &mut [u16])
        requires { length self.codes.list.ends.now * self.naming.r ≤ length edges.old }
        ensures { Named (length self.entry.codes.list.ends.now) self.entry.naming.r (λ k j. vertex_of HD self.entry.naming.v (λ i. get_or self.entry.naming.weights.now i 0) (code_of self.entry.codes.list.run.now self.entry.codes.list.ends.now k) j) edges.new }
    {
        let list = self.codes.list;
        for k in 0..list.len() {
            let code = Code {
                bytes: list.code(k),
            };
            self.naming.name_vertices(code, k * self.naming.r, edges);
        }
    }
}
