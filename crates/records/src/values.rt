// The values of the vertices, two bits each, the rank entries, and the line of a vertex.
ghost use Rattle.std.specs.Prelude.{◌≡◌, ℕ, ◌+◌, ◌*◌, ◌/◌, ◌%◌, ◌^◌, ◌≤◌, ◌<◌, length};
ghost use Rattle.std.specs.List.{range_with_len, count_by};
ghost use Rattle.counting.specs.Below.{bit, count};
ghost use Rattle.counting.specs.Widths.{one_byte, two_bytes};
ghost use Rattle.graph.specs.Assignment.{assigned};
ghost use Rattle.directory.specs.Bytes.{mark_length};
ghost use Rattle.directory.specs.Sizes.{most_vertices, vertex_count, rank_entries};
ghost use Rattle.directory.specs.Kind.{HD};
ghost use Rattle.directory.specs.Values.{value_in, rank_in, line_in};
ghost use Rattle.directory.specs.File.{table_in};
ghost use Rattle.records.specs.Standing.{bytes_from};

use crate::numbers::{byte, two};
use crate::offsets::{BLOCK, MARK, NUMBER, PER_BYTE, ranks_at, values_at};
use crate::standing::Tables;

// The bits of a value, and the largest.
const BITS: usize = 2;

const LARGEST: usize = 3;

// The two bits of place x, where the mark of GV stands at `at`. This and `count_assigned` ask for no more than the bytes that they read, so they are lent the file and not `Tables`.
#[tactic(auto, using(std::proofs::lemmas::Nat::and_mask), unfolding(directory::specs::Values::value_in))]
pub fn value(file: &[u8], at: usize, x: usize) -> usize
    requires { at + (mark_length + x / 4) < length file.now }
    ensures { (result ≡ value_in (bytes_from file.now at) x) × (result < 4) }
{
    let four = byte(file, at + (MARK + x / PER_BYTE));
    (four >> (BITS * (x % PER_BYTE))) & LARGEST
}

// 1 where value k of the four in a byte is assigned, other than r, and 0 where it is not.
fn one_assigned(four: usize, r: usize, k: usize) -> usize
    requires { (four < one_byte) × (k < 4) }
    ensures { (result ≡ bit (assigned r (four / 2 ^ (2 * k) % 4))) × (result ≤ 1) }
{
    (((four >> (BITS * k)) & LARGEST) != r) as usize
}

// How many of the four are.
#[tactic(auto, unfolding(counting::specs::Below::sum))]
fn count_four(four: usize, r: usize) -> usize
    requires { four < one_byte }
    ensures { (result ≡ count 4 (λ k. assigned r (four / 2 ^ (2 * k) % 4))) × (result ≤ 4) }
{
    one_assigned(four, r, 0)
        + one_assigned(four, r, 1)
        + one_assigned(four, r, 2)
        + one_assigned(four, r, 3)
}

// How many of the values of so many bytes are, from place `from` on, which is the first of a byte.
// By an offset, as `value`.
fn count_fours(file: &[u8], at: usize, r: usize, from: usize, bytes: usize) -> usize
    requires first { from % 4 ≡ 0 }
    requires room { (at + (mark_length + (from / 4 + bytes)) ≤ length file.now) × (from / 4 + bytes ≤ most_vertices) }
    ensures { (result ≡ count (4 * bytes) (λ i. assigned r (value_in (bytes_from file.now at) (from + i)))) × (result ≤ 4 * bytes) }
{
    let first = at + (MARK + from / PER_BYTE);
    let mut c = 0;
    for four in &file[first..first + bytes] {
        c += count_four(*four as usize, r);
    }
    c
}

// How many of the k values from place `from` on are, one by one.
// By an offset, as `value`.
fn count_singly(file: &[u8], at: usize, r: usize, from: usize, k: usize) -> usize
    requires { (at + (mark_length + (from + k + 3) / 4) ≤ length file.now) × (from + k ≤ most_vertices) }
    ensures counted { result ≡ count_by (λ i. assigned r (value_in (bytes_from file.now at) (from + i))) (range_with_len 0 k) }
    ensures most { result ≤ k }
{
    (0..k).filter(|i| value(file, at, from + *i) != r).count()
}

// How many of the k values from place `from` on, the first of a byte, are assigned: whole bytes, and then the rest.
pub fn count_assigned(file: &[u8], at: usize, r: usize, from: usize, k: usize) -> usize
    requires first { from % 4 ≡ 0 }
    requires room { (at + (mark_length + (from + k + 3) / 4) ≤ length file.now) × (from + k ≤ most_vertices) }
    ensures { (result ≡ count k (λ i. assigned r (value_in (bytes_from file.now at) (from + i)))) × (result ≤ k) }
{
    let bytes = k / PER_BYTE;
    let whole = PER_BYTE * bytes;
    count_fours(file, at, r, from, bytes) + count_singly(file, at, r, from + whole, k - whole)
}

// Rank entry b.
#[tactic(auto, using(crate::proofs::StandingLaws::rank_from))]
pub fn rank(tables: Tables, b: usize) -> usize
    requires { b < rank_entries tables.header }
    ensures { (result ≡ rank_in tables.entry.header (table_in HD tables.entry.header tables.entry.file.now) b) × (result < two_bytes) }
{
    two(tables.file, ranks_at(tables.header) + (MARK + NUMBER * b))
}

// The line of an assigned vertex y: the rank entry of its block, and the assigned vertices from the start of the block up to y.
#[tactic(auto, using(crate::proofs::StandingLaws::line_from))]
pub fn line(tables: Tables, y: usize) -> usize
    requires { y < vertex_count tables.header }
    ensures { result ≡ line_in tables.entry.header (table_in HD tables.entry.header tables.entry.file.now) y }
{
    let Tables { file, header } = tables;
    let b = y / BLOCK;
    let before = rank(tables, b);
    before + count_assigned(file, values_at(header), header.r, BLOCK * b, y % BLOCK)
}
