// Read's search: the newest entry of a home in a writer's open transaction.
#![tactic(auto)]

mod own;
mod sought;

pub use own::newest_own;
