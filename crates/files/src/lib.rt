// Files that the program's arguments name: read whole, and written whole or not at all. What fails is said on standard error.
#![tactic(auto)]

mod names; // names.rt: the name of a file
mod reading; // reading.rt: a file or standard input, read
mod writing; // writing.rt: a file, written

pub use reading::{read_argument, read_input};
pub use writing::write_argument;

// The most bytes of a directory file that are read.
pub const LONGEST_FILE: usize = 65_536;
