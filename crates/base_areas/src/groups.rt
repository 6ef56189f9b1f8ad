// Groups in the log's ring slots: a blank group, and an entry's tag and block at an index of a group.
ghost use Rattle.std.specs.Prelude.{◌≡◌, ℕ, ◌+◌, ◌*◌, ◌^◌, ◌<◌, ◌≤◌, length};
ghost use Rattle.model.specs.Bytes.{puts};
ghost use Rattle.model.specs.Layout.{group_at, turn_of, put_blank, put_entry, block_of};
ghost use Rattle.model.specs.Effects.{entered};

use crate::turns::put_turn_blocks;
use base_codec::{GROUP_SIZE, HEADER_SIZE};
use model::State;

// Writes the blank group of number `n`, which has the turn `turn`, into a ring slot.
pub fn put_blank(log: &mut [u8], slot: usize, n: u64, turn: u64)
    requires { (64 + 512 * slot + 512 ≤ length log.old) × (turn < 2) }
    ensures { (groups : ℕ) → turn ≡ turn_of groups n → log.new ≡ put_blank log.old groups slot n }
{
    let at = HEADER_SIZE + GROUP_SIZE * slot;
    base_codec::put_group_mark(log, at);
    base_codec::put_number(log, at + 2, 6, n);
    base_codec::clear(log, at + 8, 56);
    put_turn_blocks(log, at + 64, turn)
}

// Writes an entry's tag and its block at index `k` of the group in a ring slot: the block gets the turn bit, and the tag the bit that it displaces.
// [S-14]
pub fn put_entry(log: &mut [u8], slot: usize, turn: u64, k: usize, word: u64, block: &[u8])
    requires { (64 + 512 * slot + 512 ≤ length log.old) × (turn < 2) × (k < 7) × (word < 2 ^ 57) × (length block.now ≡ 64) }
    ensures { log.new ≡ put_entry log.old slot turn k word block.now }
{
    let at = HEADER_SIZE + GROUP_SIZE * slot;
    let whole = base_codec::with_displaced(word, base_codec::top_bit(block, 0));
    base_codec::put_number(log, at + (8 + 8 * k), 8, whole);
    base_codec::copy_with_top_bit(log, at + (64 + 64 * k), block, 0, turn)
}

// Writes an entry's tag and block at the next position, whose group has the turn `turn`, and a blank group first where the position is a
// group's first. [S-11]
pub fn enter(log: &mut [u8], slot: usize, turn: u64, st: State, word: u64, block: &[u8])
    requires { (64 + 512 * slot + 512 ≤ length log.old) × (turn ≡ turn_of st.groups st.next) × (turn < 2) × (st.filled < 7)
        × (word < 2 ^ 57) × (length block.now ≡ 64) }
    ensures { log.new ≡ entered st slot log.old word block.now }
{
    let filled = st.filled;
    if filled == 0 {
        put_blank(log, slot, st.next, turn);
    }
    put_entry(log, slot, turn, filled as usize, word, block)
}

// Writes the block that the entry at index `k` of the group in a ring slot gives, with the displaced bit back in its place, from index `at` on.
// [S-15]
pub fn copy_entry(dst: &mut [u8], at: usize, log: &[u8], slot: usize, k: usize)
    requires { (at + 64 ≤ length dst.old) × (64 + 512 * slot + 512 ≤ length log.now) × (k < 7) }
    ensures { dst.new ≡ puts dst.old at (block_of (group_at log.now slot) k) }
{
    let from = HEADER_SIZE + GROUP_SIZE * slot;
    let bit = base_codec::displaced(base_codec::number(log, from + (8 + 8 * k), 8));
    base_codec::copy_with_top_bit(dst, at, log, from + (64 + 64 * k), bit)
}
