// The calls that bring a store up: format and open, each equal to its definition in model/specs/Calls.
#![tactic(auto)]

mod formatting;
mod opening;

pub use formatting::format;
pub use opening::reopen;
