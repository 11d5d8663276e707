// The records of a file, read where they stand: numbers, values, rank entries, the vertices of a code, and where it leads.
#![tactic(auto)]

pub mod offsets; // offsets.rt: where the records stand
pub mod sizes; // sizes.rt: the sizes that are allowed
pub mod standing; // standing.rt: a file by what is known to stand in it
pub mod numbers; // numbers.rt: marks and numbers in bytes
pub mod values; // values.rt: the values, the rank entries, and the line of a vertex
pub mod adding; // adding.rt: the sums of a code, and a vertex from a sum
mod vertices; // vertices.rt: the vertices of a code, and its landing vertex
pub mod codes; // codes.rt: the codes of the KY records

ghost use Rattle.std.specs.Prelude.{◌≡◌};
ghost use Rattle.directory.specs.Kind.{HD};
ghost use Rattle.directory.specs.File.{lead_in};

use crate::offsets::{BLOCK, values_at};
use crate::standing::{Code, Tables};
use crate::values::{line, value};
use crate::vertices::landing;
use directory::Lead;

// The sums of a code for its first, second and third part. Where there are two parts the third is not looked at.
#[derive(Clone, Copy)]
pub struct Sums {
    pub first: u32,
    pub second: u32,
    pub third: u32,
}

// Where a code leads by the stored values.
#[tactic(auto, using(crate::proofs::StandingLaws::table_from), unfolding(directory::specs::File::lead_in, directory::specs::Leads::lead_of, directory::specs::Whole::landing_of))]
pub fn lead(tables: Tables, code: Code) -> Lead
    ensures { result ≡ lead_in HD tables.entry.header tables.entry.file.now code.entry.bytes.now }
{
    let Tables { file, header } = tables;
    let y = landing(tables, code);
    if value(file, values_at(header), y) == header.r {
        return Lead::Nowhere;
    }
    let l = line(tables, y);
    if l < header.n {
        Lead::ToLine(l)
    } else {
        Lead::PastLast(y / BLOCK)
    }
}
