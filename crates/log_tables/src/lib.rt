// What settle, open and a round's step share: the committed transactions of the log brought back into the data copy, and the records of their homes.
#![tactic(auto)]

mod planning;
mod steps;
mod tables;
mod whole;

pub use planning::{bring_back, step};
pub use tables::Replay;
