// Where the records of a file stand.
ghost use Rattle.std.specs.Prelude.{◌≡◌, ◌≤◌};
ghost use Rattle.directory.specs.Sizes.{most_codes};
ghost use Rattle.records.specs.Standing.{Room, values_from, ranks_from, key_from, code_from};

use directory::Header;

// The header: its mark, n, r and v.
pub const HEADER: usize = 7;

// A mark has two letters, and a number two bytes.
pub const MARK: usize = 2;

pub const NUMBER: usize = 2;

// The most bytes of a code; so many weights belong to each part.
pub const POSITIONS: usize = 32;

// The most parts, and so the most vertices of a code.
pub const MOST_PARTS: usize = 3;

// Values to a byte, and vertices to a rank entry.
pub const PER_BYTE: usize = 4;

pub const BLOCK: usize = 64;

// The mark and the length before the code in a KY record.
const KEY_HEAD: usize = 3;

// The values stand here, under the mark of GV.
pub fn values_at(h: Header) -> usize
    requires { h.r ≤ 3 }
    ensures { result ≡ values_from h.r }
{
    HEADER + (MARK + NUMBER * (POSITIONS * h.r))
}

// The rank entries stand here, under the mark of RK.
// `Room` stays a clause: reader::header and the builder ask where a file would end before there is one, so `Tables` cannot carry it for them.
pub fn ranks_at(h: Header) -> usize
    requires { Room h.r h.v }
    ensures { result ≡ ranks_from h }
{
    values_at(h) + (MARK + (h.r * h.v).div_ceil(PER_BYTE))
}

// The KY record of line l stands here, and the file ends where that of line n would.
// `Room` stays a clause, as in `ranks_at`.
pub fn key_at(h: Header, l: usize) -> usize
    requires room { Room h.r h.v }
    requires few { l ≤ most_codes }
    ensures { result ≡ key_from h l }
{
    let keys = ranks_at(h) + (MARK + NUMBER * (h.r * h.v).div_ceil(BLOCK));
    keys + (KEY_HEAD + POSITIONS) * l
}

// The code of line l stands here, after its mark and length.
// `Room` stays a clause, as in `ranks_at`.
pub fn code_at(h: Header, l: usize) -> usize
    requires room { Room h.r h.v }
    requires few { l ≤ most_codes }
    ensures { result ≡ code_from h l }
{
    key_at(h, l) + KEY_HEAD
}
