// What the arguments are, and what they ask for.

// How many there are, with the program's own name, and the place of each.
pub const ARGUMENTS: usize = 6;

pub const CODES: usize = 1;

pub const WEIGHTS: usize = 2;

pub const R: usize = 3;

pub const V: usize = 4;

pub const FILE: usize = 5;

// The largest number that is read as R or V; which of them are sizes is for building to say.
pub const MOST_SIZE: u32 = 65_535;

// 1,025 lines of 0x and 33 pairs of digits, each with a carriage return and a newline.
pub const LONGEST_TEXT: usize = 71_750;

// One byte more, which a longer text fills.
pub const TEXT_ROOM: usize = 71_751;

// A directory of the codes and the weights of two texts, with its sizes.
#[derive(Clone, Copy)]
pub struct Asked<'a> {
    pub codes: &'a [u8],
    pub weights: &'a [u8],
    pub r: u32,
    pub v: u32,
}
