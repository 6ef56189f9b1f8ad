// The call store, which fills the log, and the entry that commit logs too.
#![tactic(auto)]

mod entry;
mod stores;

pub use entry::{closing_word, log_answer, log_entry};
pub use stores::{store, store_first, store_next};
