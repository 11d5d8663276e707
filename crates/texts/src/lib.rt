// Codes, weights, numbers and reports out of text. What a text holds is laid down in specs/.
#![tactic(auto)]

mod finding; // finding.rt: where lines and words end
mod lines; // lines.rt: the lines of a text
mod words; // words.rt: the words of a text
mod numbers; // numbers.rt: a number
mod levels; // levels.rt: a level, which may be below zero
mod hex; // hex.rt: hex digits, and the bytes of pairs of them
mod coding; // coding.rt: the code of a line
mod reading; // reading.rt: all codes of a text, and all weights of one
mod reports; // reports.rt: the report that a line is

pub use coding::{MOST_KEPT, in_hex, read_code};
pub use lines::{after_line, first_line, line};
pub use numbers::read_number;
pub use reading::{MOST_LINES, MOST_WORDS, read_codes, read_weights};
pub use reports::{MOST_TIME, read_report};
pub use words::word;

// How many codes a text has, and how many bytes are kept of them in all.
#[derive(Clone, Copy)]
pub struct Codes {
    pub count: usize,
    pub size: usize,
}

// The first line of a text that is wrong.
#[derive(Clone, Copy)]
pub struct WrongLine(pub usize);

// The first word of a text that is no weight.
#[derive(Clone, Copy)]
pub struct WrongWord(pub usize);

// How many bytes are kept of a report's code, its level in millimetres and its time.
#[derive(Clone, Copy)]
pub struct Report {
    pub size: usize,
    pub level: i32,
    pub time: u32,
}
