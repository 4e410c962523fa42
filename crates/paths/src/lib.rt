// What a rule selects and reads, worked out plainly for each record by walking up from it, and whether a day is a change day.
#![tactic(auto)]

pub mod selecting; // selecting.rt: the versions that a rule selects
pub mod reading; // reading.rt: the versions that a rule reads
pub mod turning; // turning.rt: whether a day is a change day
