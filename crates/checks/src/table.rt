// The values, the spare bits, the rank entries and the total.
ghost use Rattle.std.specs.Prelude.{◌≡◌, not, ◌+◌, ◌-◌, ◌/◌, ◌≤◌, ◌<◌, eqb, length};
ghost use Rattle.std.specs.List.{range_with_len, find, list_any};
ghost use Rattle.directory.specs.Sizes.{vertex_count, rank_entries};
ghost use Rattle.directory.specs.Kind.{HD};
ghost use Rattle.directory.specs.Bytes.{mark_length};
ghost use Rattle.directory.specs.Values.{value_in, value_over, spare_set, rank_wrong, table_refusals};
ghost use Rattle.directory.specs.File.{table_in};
ghost use Rattle.directory.specs.Refusals.{ok_unless};
ghost use Rattle.records.specs.Standing.{bytes_from};

use directory::{Reason, Refused};
use records::offsets::{BLOCK, PER_BYTE, values_at};
use records::standing::{Directory, Tables};
use records::values::{count_assigned, rank, value};

// Whether the value of vertex x is over r.
#[tactic(auto, using(records::proofs::StandingLaws::table_from), unfolding(directory::specs::Values::value_over))]
fn over(tables: Tables, x: usize) -> bool
    requires { x < vertex_count tables.header }
    ensures { result ≡ value_over tables.entry.header (table_in HD tables.entry.header tables.entry.file.now) x }
{
    let Tables { file, header } = tables;
    header.r < value(file, values_at(header), x)
}

// The lowest vertex whose value is over r.
fn value_over(tables: Tables) -> Option<usize>
    ensures { result ≡ find (value_over tables.entry.header (table_in HD tables.entry.header tables.entry.file.now)) (range_with_len 0 (vertex_count tables.entry.header)) }
{
    (0..tables.header.r * tables.header.v).find(|x| over(tables, *x))
}

// Whether one of the values from one place up to another is not zero. By places and no slice: a value is two bits. The chain in spare_set itself was tried; its proof did not close.
fn some_set(file: &[u8], at: usize, from: usize, to: usize) -> bool
    requires { at + (mark_length + (to + 3) / 4) ≤ length file.now }
    ensures { result ≡ list_any (λ x. not (eqb (value_in (bytes_from file.now at) x) 0)) (range_with_len from (to - from)) }
{
    (from..to).any(|x| value(file, at, x) != 0)
}

// Whether a spare bit is set: one of the places after the last vertex, up to the end of its byte.
#[tactic(auto, using(counting::proofs::RangeLaws::any_range, records::proofs::StandingLaws::table_from), unfolding(directory::specs::Values::spare_set))]
fn spare_set(tables: Tables) -> bool
    ensures { result ≡ spare_set tables.entry.header (table_in HD tables.entry.header tables.entry.file.now) }
{
    let Tables { file, header } = tables;
    let m = header.r * header.v;
    let end = PER_BYTE * m.div_ceil(PER_BYTE);
    some_set(file, values_at(header), m, end)
}

// The lowest rank entry that is wrong.
fn wrong_rank(tables: Tables) -> Option<usize>
    ensures { result ≡ find (rank_wrong tables.entry.header (table_in HD tables.entry.header tables.entry.file.now)) (range_with_len 0 (rank_entries tables.entry.header)) }
{
    let Tables { file, header } = tables;
    let m = header.r * header.v;
    let at = values_at(header);
    let mut below = 0;
    for b in 0..m.div_ceil(BLOCK) {
        if rank(tables, b) != below {
            return Some(b);
        }
        let from = BLOCK * b;
        below += count_assigned(file, at, header.r, from, BLOCK.min(m - from));
    }
    None
}

// The first wrong value, spare bit, rank entry or total, if there is one.
pub fn table(directory: Directory) -> Result<(), Refused>
    ensures { result ≡ ok_unless tt (table_refusals directory.entry.header (table_in HD directory.entry.header directory.entry.file.now)) }
{
    let tables = directory.tables();
    let Tables { file, header } = tables;
    let m = header.r * header.v;
    if let Some(x) = value_over(tables) {
        return Err(Reason::WrongValue.at(x));
    }
    if spare_set(tables) {
        return Err(Reason::WrongValue.at(m));
    }
    if let Some(b) = wrong_rank(tables) {
        return Err(Reason::WrongRank.at(b));
    }
    if count_assigned(file, values_at(header), header.r, 0, m) != header.n {
        return Err(Reason::WrongRank.at(m.div_ceil(BLOCK)));
    }
    Ok(())
}
