// The rows of the sign, written into a buffer that the caller lends. What a row shows is laid down in specs/.
#![tactic(auto)]

mod filling; // filling.rt: a text filled with blanks to a width
mod digits; // digits.rt: numbers of two and of three digits
mod codes; // codes.rt: the column of codes
mod values; // values.rt: the columns of levels and ages
mod answers; // answers.rt: what an answer lets a row show, and its word
mod row; // row.rt: a whole row
mod signs; // signs.rt: the whole sign

pub use signs::{LONGEST_SIGN, Sign, put_rows};

// Where the blanks go that fill a text to a width.
#[derive(Clone, Copy)]
pub enum Side {
    Left,
    Right,
}

// What a column shows: a level in millimetres, or an age in seconds.
#[derive(Clone, Copy)]
pub enum Value {
    Level(i32),
    Age(u32),
}

// What a row shows of a line's last report: its level and its age.
#[derive(Clone, Copy)]
pub struct Seen {
    pub level: i32,
    pub age: u32,
}
