// The change days of a rule, along two orders of the versions.
#![tactic(auto)]

pub mod merging; // merging.rt: counted, and stored in a lent list
