// The records of a batch, appended to its buffer at an offset, as model/specs/Batch defines their bytes.
#![tactic(auto)]

mod format;
mod marked;
mod records;

pub use format::{all_groups, all_homes, format_batch};
pub use marked::emit_word;
pub use records::{
    fence, group_write, header_write, home_write, unused_write, zero_header_write, zero_home_write,
};
