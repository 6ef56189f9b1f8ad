// Replay by chains: each word's chain of entries gives the newest committed entries of its homes. The tables go by the size of the log, whatever the
// number of homes.
#![tactic(auto)]

mod places;
mod restore;
mod stepping;
mod words;

pub use restore::bring_back;
pub use stepping::{Reached, bring_from, count_from};
pub use words::count;
