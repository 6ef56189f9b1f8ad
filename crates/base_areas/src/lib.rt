// The two areas: the log's header and groups, the homes, and their lengths, as model/specs/Layout defines them.
#![tactic(auto)]

mod blocks;
mod groups;
mod header;
mod homes;
mod lengths;
mod turns;
mod unused;

pub use blocks::copy_block;
pub use groups::{copy_entry, enter, put_blank, put_entry};
pub use header::{header_right, header_start, put_header};
pub use homes::{get_home, put_home};
pub use lengths::{data_homes, data_right, log_groups, log_right};
pub use unused::{put_empty_log, put_unused, unused_bit};
