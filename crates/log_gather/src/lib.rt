// One pass over the log that applies the commit rule, notes the closing entries of the transactions and chains the entries by the word of
// 64 homes that they are for.
#![tactic(auto)]

mod gathering;
mod twice;
mod walking;

pub use twice::walk_twice;
pub use walking::walk;
