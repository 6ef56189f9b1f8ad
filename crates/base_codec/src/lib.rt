// Numbers, blocks, tags, turn bits and marks in slices of bytes, as model/specs defines them.
#![tactic(auto)]

mod blocks;
mod kinds;
mod marks;
mod numbers;
mod plain;
mod tags;
mod turns;

// Bytes of the log's header, of a group and of the state; the most groups of a log, and the highest number that a log may start at.
pub const HEADER_SIZE: usize = 64;

pub const GROUP_SIZE: usize = 512;

pub const STATE_SIZE: usize = 1024;

pub const MAX_GROUPS: u64 = 1024;

pub const MAX_START: u64 = 0x8000_0000_0000;

pub use blocks::{all_zero, clear, copy};
pub use kinds::{has_home, is_closing, is_plain, tag_count, tag_link};
pub use marks::{
    has_group_head, has_header_mark, put_fence_mark, put_group_mark, put_group_write_mark,
    put_header_mark, put_header_write_mark, put_home_write_mark,
};
pub use numbers::{byte, number, put_byte, put_number};
pub use plain::{fits_plain, other_back, plain_home};
pub use tags::{commit_word, displaced, entry_word, read_tag, tag_back, with_displaced};
pub use turns::{copy_with_top_bit, top_bit};
