// The sign: the level and the time of each line's last report, in lists that the caller lends. It stands on looking up alone.
#![tactic(auto)]

mod levels; // levels.rt: the range of levels
mod places; // places.rt: numbers in the places of a list, four bytes each
mod rules; // rules.rt: what a line's last report makes of a report and of a question
mod keeping; // keeping.rt: the last reports, kept in the lists
mod entering; // entering.rt: the line that a call goes on with
mod calls; // calls.rt: reporting and asking

pub use calls::{ask, report};
pub use keeping::heard;
pub use levels::{HIGHEST_LEVEL, LOWEST_LEVEL};
pub use places::PLACE;

// What a report says: a level in millimetres and its time in seconds.
#[derive(Clone, Copy, Debug, PartialEq, Eq)]
pub struct Reading {
    pub level: i32,
    pub time: u32,
}

// What asking gives of a listed code: never heard, fresh with the level, or stale with level and age.
#[derive(Clone, Copy, Debug, PartialEq, Eq)]
pub enum Answer {
    Never,
    Fresh(i32),
    Stale(i32, u32),
}
