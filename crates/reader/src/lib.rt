// Reading a directory file: its header, a code's line, a line's code, and whether the whole file is right. Every call takes any bytes and looks at them itself; none writes.
#![tactic(auto)]

mod sizes; // sizes.rt: the sizes, and the length of a file
mod heading; // heading.rt: the header
mod framing; // framing.rt: a file with its header
mod looking; // looking.rt: looking a code up
mod showing; // showing.rt: showing the code of a line
mod opening; // opening.rt: all checks of a file
mod refusals; // refusals.rt: what a refusal's number and place mean

pub use heading::header;
pub use looking::lookup;
pub use opening::open;
pub use refusals::{group_of, meaning_of};
pub use showing::{part, show};
pub use sizes::length;
