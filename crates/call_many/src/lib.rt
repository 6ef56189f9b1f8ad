// Transact: blocks for several homes in a row, stored and committed under one verdict.
#![tactic(auto)]

mod questions;
mod steps;
mod transacts;

pub use transacts::transact;
