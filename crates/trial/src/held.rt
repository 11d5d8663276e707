// What vectors hold.
use crate::filled::Filled;

// The most bytes of a file and of a run, and of a code that is asked for.
const LONGEST_FILE: usize = 65_536;

const LONGEST_CODE: usize = 4_096;

// The most ends and weights that are lent.
pub const MOST_ENDS: usize = 2_048;

pub const MOST_WEIGHTS: usize = 128;

// The most bytes of a list of the sign: two places more than the most lines have.
pub const LONGEST_LIST: usize = 4_104;

// The file under trial, the code that is asked for, the run, the ends and the weights that are lent to a build, and the sign's lists.
#[derive(Default, Drop)]
pub struct Held {
    pub file: Filled<u8, LONGEST_FILE>,
    pub code: Filled<u8, LONGEST_CODE>,
    pub run: Filled<u8, LONGEST_FILE>,
    pub ends: Filled<u16, MOST_ENDS>,
    pub weights: Filled<u16, MOST_WEIGHTS>,
    pub levels: Filled<u8, LONGEST_LIST>,
    pub times: Filled<u8, LONGEST_LIST>,
}
