// Calls on several homes that read: fetch and revise, and the questions that each such call puts first.
#![tactic(auto)]

mod allowed;
mod fetches;
mod questions;

pub use allowed::may_store_all;
pub use fetches::{fetch, revise};
pub use questions::homes_answer;
