// Settle, at once or in a round's steps, each call equal to its definition in model/specs/Calls.
#![tactic(auto)]

mod rounds;
mod settling;

pub use rounds::{begin_round, step_round};
pub use settling::settle;
