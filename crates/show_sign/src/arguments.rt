// What the arguments are, and the room for the text of the reports.

// How many there are, with the program's own name, and the place of each.
pub const ARGUMENTS: usize = 5;

pub const FILE: usize = 1;

pub const REPORTS: usize = 2;

pub const NOW: usize = 3;

pub const LIMIT: usize = 4;

// The longest text of reports.
pub const LONGEST_TEXT: usize = 262_144;

// One byte more, which a longer text fills.
pub const TEXT_ROOM: usize = LONGEST_TEXT + 1;
