// The log's groups, and the walk over them that applies the commit rule, as model/specs defines both.
#![tactic(auto)]

mod commits;
mod groups;
mod slots;

pub use commits::{
    Found, Progress, count_entry, decide, in_group, skipped, walk_large, walk_small, walk_with,
};
pub use groups::{back_in, group_valid, tag_in, tag_there, tag_words, word_there};
pub use slots::{RingSlot, first_slot, next_slot, previous_slot};
