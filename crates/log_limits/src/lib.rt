// Trim's limits: the highest start that no open transaction lies across, and the highest up to that which no committed one lies across.
#![tactic(auto)]

mod spans;
mod writers;

pub use spans::closed_limit;
pub use writers::open_limit;
