// The vertices of a code by the stored weights, and its landing vertex by the stored values.
ghost use Rattle.std.specs.Prelude.{◌≡◌, ℕ, ◌*◌, ◌≤◌, ◌<◌, length, get_or};
ghost use Rattle.counting.specs.Below.{sum};
ghost use Rattle.counting.specs.Holds.{Holds};
ghost use Rattle.directory.specs.Kind.{HD, vertex as vertex_of};
ghost use Rattle.directory.specs.Values.{value_in};
ghost use Rattle.directory.specs.Whole.{landing_of};
ghost use Rattle.records.specs.Standing.{weight_of, bytes_from, values_from};

use crate::adding::{self, Stored};
use crate::offsets::{MOST_PARTS, values_at};
use crate::sizes::FEWEST_PARTS;
use crate::standing::{Code, Tables};
use crate::values::value;

// The vertices of a code by the stored weights.
fn name_vertices(tables: Tables, code: Code) -> [usize; MOST_PARTS]
    ensures { Holds tables.entry.header.r (vertex_of HD tables.entry.header.v (weight_of tables.entry.file.now) code.entry.bytes.now) result }
{
    let Tables { file, header } = tables;
    adding::name_vertices(&Stored { file }, header.r, header.v, code)
}

// The sum of the values of as many vertices as there are parts.
#[tactic(auto, unfolding(counting::specs::Below::sum))]
fn value_sum(tables: Tables, vertices: &[usize]) -> usize
    requires even { tables.header.r ≤ length vertices.now }
    requires inside { (j : ℕ) → j < tables.header.r → get_or vertices.now j 0 < tables.header.r * tables.header.v }
    ensures { result ≡ sum tables.entry.header.r (λ j. value_in (bytes_from tables.entry.file.now (values_from tables.entry.header.r)) (get_or vertices.now j 0)) }
{
    let Tables { file, header } = tables;
    let at = values_at(header);
    let s = value(file, at, vertices[0]) + value(file, at, vertices[1]);
    if FEWEST_PARTS < header.r {
        s + value(file, at, vertices[2])
    } else {
        s
    }
}

// The landing vertex of a code.
#[tactic(auto, using(crate::proofs::StandingLaws::vertex_in_lem, crate::proofs::LeadLaws::landing_from))]
pub fn landing(tables: Tables, code: Code) -> usize
    ensures { (result ≡ landing_of HD tables.entry.header tables.entry.file.now code.entry.bytes.now) × (result < tables.entry.header.r * tables.entry.header.v) }
{
    let vertices = name_vertices(tables, code);
    let s = value_sum(tables, &vertices);
    vertices[s % tables.header.r]
}
