// Question 2: whether the state strip is in order for a log of so many groups and so many homes, as model/specs/State defines it.
#![tactic(auto)]

mod distances;
mod numbers;
mod pending;
mod records;
mod whole;

pub use whole::whole_in_order;
