// Groups that hold nothing, and the empty log that format and open leave.
ghost use Rattle.std.specs.Prelude.{◌≡◌, ◌++◌, ℕ, ◌+◌, ◌-◌, ◌*◌, ◌%◌, ◌<◌, ◌≤◌, length};
ghost use Rattle.model.specs.Bytes.{puts, zeros};
ghost use Rattle.model.specs.Layout.{turn_of, turn_blocks, next_in, empty_log};

use crate::header::put_header;
use crate::turns::put_turn_blocks;
use base_codec::{GROUP_SIZE, HEADER_SIZE};

// Writes an unused group, whose data blocks have the turn bit `bit`, from index `at` on.
pub fn put_unused(dst: &mut [u8], at: usize, bit: u64)
    requires { (at + 512 ≤ length dst.old) × (bit < 2) }
    ensures { dst.new ≡ puts dst.old at (zeros 64 ++ turn_blocks 7 bit) }
{
    base_codec::clear(dst, at, 64);
    put_turn_blocks(dst, at + 64, bit)
}

// The turn bit of an unused ring slot: opposite to that of the group which it gets next, in a log whose start lies in the slot `first` and has the
// turn `turn`. The slots before the start's get a group of the next turn.
pub fn unused_bit(slot: u64, first: u64, turn: u64) -> u64
    requires { turn < 2 }
    ensures { (result < 2)
        × ((groups start : ℕ) → slot < groups → first ≡ start % groups → turn ≡ turn_of groups start → result
        ≡ 1 - turn_of groups (next_in groups start slot)) }
{
    if slot < first { turn } else { 1 - turn }
}

// Makes a log copy empty, with its start at group `start`.
pub fn put_empty_log(log: &mut [u8], start: u64, groups: u64, homes: u64)
    requires { (length log.old ≡ 64 + 512 * groups) × (0 < groups) }
    ensures { log.new ≡ empty_log start groups homes }
{
    put_header(log, 0, start, groups, homes);
    let first = start % groups;
    let turn = start / groups % 2;
    let mut slot: u64 = 0;
    while slot < groups {
        put_unused(
            log,
            HEADER_SIZE + GROUP_SIZE * slot as usize,
            unused_bit(slot, first, turn),
        );
        slot += 1;
    }
}
