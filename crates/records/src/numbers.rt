// Marks and numbers in the bytes of a file.
// By an offset of the file, as document 01 places its records: no length stands beside it.
ghost use Rattle.std.specs.Prelude.{◌≡◌, ◌+◌, ◌<◌, length};
ghost use Rattle.counting.specs.Widths.{one_byte, two_bytes};
ghost use Rattle.directory.specs.Bytes.{byte_at, two_at, marked as markedAt};

// So many numbers does a byte hold.
pub const BYTE: usize = 256;

// The two letters of each mark.
pub const HD: (u8, u8) = (b'H', b'D');

pub const WT: (u8, u8) = (b'W', b'T');

pub const GV: (u8, u8) = (b'G', b'V');

pub const RK: (u8, u8) = (b'R', b'K');

pub const KY: (u8, u8) = (b'K', b'Y');

// A byte, as a number.
pub fn byte(file: &[u8], at: usize) -> usize
    requires { at < length file.now }
    ensures { (result ≡ byte_at file.now at) × (result < one_byte) }
{
    file[at] as usize
}

// A number in two bytes, the low one first.
pub fn two(file: &[u8], at: usize) -> usize
    requires { at + 1 < length file.now }
    ensures { (result ≡ two_at file.now at) × (result < two_bytes) }
{
    u16::from_le_bytes([file[at], file[at + 1]]) as usize
}

// Whether a mark stands at an offset. Letter by letter, as the definition: a mark is a pair there, and an equality of slices would need an array first.
#[tactic(auto, unfolding(directory::specs::Bytes::marked))]
pub fn marked(file: &[u8], at: usize, mark: (u8, u8)) -> bool
    requires { at + 1 < length file.now }
    ensures { result ≡ markedAt file.now at (mark.0, mark.1) }
{
    file[at] == mark.0 && file[at + 1] == mark.1
}
