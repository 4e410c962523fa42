// The slice of a day and the change days of a rule, over the columns of a document, into lent lists.
#![tactic(auto)]

pub mod slices; // slices.rt: the versions of a day
pub mod turning; // turning.rt: the change days of a rule
