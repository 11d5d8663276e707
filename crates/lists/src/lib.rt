// Code lists as they are lent, one run of bytes and a list of ends: their codes, the checks 5 and 7, and the vertices of all codes.
#![tactic(auto)]

pub mod ends; // ends.rt: where the codes start and end, and the codes
pub mod checks; // checks.rt: check 5, of the ends
pub mod repeats; // repeats.rt: check 7, for codes that are equal
pub mod edges; // edges.rt: the vertices of all codes
