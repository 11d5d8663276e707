// What opening looks at once the header and the length are right: the other marks, then the values and the rank entries, then the KY records.
#![tactic(auto)]

pub mod marks; // marks.rt: the marks after the first
pub mod table; // table.rt: the values, the spare bits, the rank entries and the total
pub mod keys; // keys.rt: the KY records, and the codes that they lead to
