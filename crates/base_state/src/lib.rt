// The state strip of 1,024 bytes as model/specs/State defines it: its numbers, its writers' records, held blocks and promises, and the
// positions and the sign of the list of rights.
#![tactic(auto)]

mod fields;
mod listed;
mod promises;
mod writers;

pub use fields::{
    durable, fenced, filled, fresh, last, next, next_position, number_of_groups, number_of_homes,
    round, set_cursor, set_durable, set_fenced, set_filled, set_last, set_next, set_round,
    set_settled, set_start, settled, start, state,
};
pub use listed::{carry_listed, list_sign, set_list_sign};
pub use promises::{
    keeps_promises, may_promise, none_promised, places, promise, promise_left, promised, room_for,
    set_promise,
};
pub use writers::{
    begun, count_for, first_for, has_logged, holding, holds, idle, is_open, logging, set_held,
    set_writer, writer,
};
