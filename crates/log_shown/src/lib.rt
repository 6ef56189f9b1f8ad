// What a home shows where a position is kept for it: the block of the entry there, if one for that home is, else that of the data copy.
#![tactic(auto)]

use base_codec::{GROUP_SIZE, HEADER_SIZE};

mod ring;
mod tags;

ghost use Rattle.std.specs.Prelude.{◌≡◌, ◌&&◌, ◌+◌, ◌*◌, ◌<◌, ◌≤◌, eqb, length};
ghost use Rattle.model.specs.Tag.{present, home_of, displaced};
ghost use Rattle.model.specs.Bytes.{number};
ghost use Rattle.model.specs.Layout.{block_at};
ghost use Rattle.model.specs.State.{state_of, next_position};
ghost use Rattle.log_shown.specs.There.{Searchable, RingPlaced, tags_by, place_by, tag_from};

use model::State;
use ring::{RingPlace, ring_place};
use tags::is_entry_for;

// Whether an entry for a home stands `after` positions behind the log's start, which is at a place of the ring: its group's number is in range.
fn entry_there(log: &[u8], st: State, home: u64, after: u64, at: RingPlace) -> bool
    requires { Searchable log.now st × (7 * st.start + after < next_position st) × (home < st.homes)
        × RingPlaced st.groups (7 * st.start + after) at }
    ensures { result ≡ (present (tags_by log.now st (7 * st.start + after))
        && eqb (home_of (tags_by log.now st (7 * st.start + after))) home) }
{
    let from = HEADER_SIZE + GROUP_SIZE * at.slot as usize;
    let group = &log[from..from + GROUP_SIZE];
    if !base_codec::has_group_head(group, 0, at.number) {
        return false;
    }
    let word = log_scan::word_there(group, at.turn, at.k as usize);
    is_entry_for(word, home, after)
}

// Where the block of the entry for a home lies in the log, if one is at the position kept for it; else 0.
fn place_by(log: &[u8], st: State, home: u64, position: u64) -> usize
    requires { Searchable log.now st × (home < st.homes) }
    ensures { result ≡ place_by log.now st home position }
{
    let base = 7 * st.start;
    if position < base {
        return 0;
    }
    if position >= base_state::next_position(st) {
        return 0;
    }
    let after = position - base;
    let at = ring_place(st, after);
    if !entry_there(log, st, home, after, at) {
        return 0;
    }
    HEADER_SIZE + GROUP_SIZE * at.slot as usize + (64 + 64 * at.k as usize)
}

// The same by the strip. Called by one name from everywhere, so that of its numbers only those that are compared are read.
pub fn place(log: &[u8], state: &[u8], home: u64, position: u64) -> usize
    requires { Searchable log.now (state_of state.now) × (length state.now ≡ 1024) × (home < (state_of state.now).homes) }
    ensures { result ≡ place_by log.now (state_of state.now) home position }
{
    let st = base_state::state(state);
    place_by(log, st, home, position)
}

// The bit that the turn bit of the block at index `at` displaced.
pub fn displaced_at(log: &[u8], at: usize) -> u64
    requires { (128 ≤ at) × (at + 64 ≤ length log.now) }
    ensures { (result ≡ displaced (number 8 log.now (tag_from at))) × (result < 2) }
{
    let from = at - 64;
    base_codec::displaced(base_codec::number(log, 64 + from / 512 * 512 + from % 512 / 8, 8))
}

// Copies the block that the entry at a position gives.
pub fn show_entry(block: &mut [u8], log: &[u8], groups: u64, position: u64)
    requires { (length block.old ≡ 64) × (length log.now ≡ 64 + 512 * groups) × (0 < groups) }
    ensures { block.new ≡ block_at log.now groups position }
{
    let slot = (position / 7 % groups) as usize;
    let k = (position % 7) as usize;
    base_areas::copy_entry(block, 0, log, slot, k)
}
