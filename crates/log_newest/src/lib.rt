// The newest positions: a strip with, for each home, the position of its newest committed entry, in eight bytes, or all ones for none.
#![tactic(auto)]

mod commits;
mod groups;
mod near;
mod positions;
mod words;

pub use commits::{keep_entries, keep_one};
pub use positions::{forget, keep, keep_nothing, kept};
