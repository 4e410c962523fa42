// Distinct values: records of one key and one value make a class, and where several of a class are present at once only one counts. From
// where on each counts is found in one sweep. It knows columns of numbers and no document: a record takes part if its key is below n.
#![tactic(auto)]

pub mod classes; // classes.rt: a class for each record, by its key and its value
pub mod shifts; // shifts.rt: from where on each record counts
