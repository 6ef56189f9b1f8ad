// The list of rights: 256 bytes in four homes, each found by the position kept for it in the slice `kept` from index `from` on.
ghost use Rattle.std.specs.Prelude.{◌≡◌, true, ◌&&◌, ◌||◌, ◌≢◌, ℕ, ◌+◌, ◌-◌, ◌*◌, ◌/◌, ◌%◌, ◌^◌, ◌<◌, ◌≤◌, length};
ghost use Rattle.model.specs.Bytes.{part, number, zeros, same};
ghost use Rattle.model.specs.Rights.{in_ranges};
ghost use Rattle.model.specs.State.{state_of, list_sign};
ghost use Rattle.log_shown.specs.There.{Searchable, place_by};
ghost use Rattle.call_rights.specs.Listed.{Listed, block_by, blocks_by, block_from, opens, opens_by};

use crate::ranges::{in_entry, in_ranges};
use crate::zeros::{zero_block, zero_entry};

// What is kept for no position: all ones.
const NO_POSITION: u64 = 0xffff_ffff_ffff_ffff;

// Whether no position is kept for any of the list's homes: the whole list lies in the data copy.
fn none_kept(kept: &[u8], from: usize) -> bool
    requires { (from + 32 ≤ length kept.now) × (from < 2 ^ 32) }
    ensures { result ≡ true → (i : ℕ) → i < 4 → number 8 kept.now (from + 8 * i) ≡ 2 ^ 64 - 1 }
{
    if base_codec::number(kept, from, 8) != NO_POSITION {
        return false;
    }
    if base_codec::number(kept, from + 8, 8) != NO_POSITION {
        return false;
    }
    if base_codec::number(kept, from + 16, 8) != NO_POSITION {
        return false;
    }
    base_codec::number(kept, from + 24, 8) == NO_POSITION
}

// Whether all four blocks of the list are zeros in the data copy.
fn none_in_copy(area: &[u8]) -> bool
    requires { 768 ≤ length area.now }
    ensures { result ≡ (same (part area.now 512 64) (zeros 64)
        && (same (part area.now 576 64) (zeros 64)
        && (same (part area.now 640 64) (zeros 64) && same (part area.now 704 64) (zeros 64)))) }
{
    if !zero_block(area, 512) {
        return false;
    }
    if !zero_block(area, 576) {
        return false;
    }
    if !zero_block(area, 640) {
        return false;
    }
    zero_block(area, 704)
}

// Where the block of the list's home 8 + `i` lies in the log, 0 where the data copy has it.
fn place(log: &[u8], state: &[u8], kept: &[u8], from: usize, i: usize) -> usize
    requires { Searchable log.now (state_of state.now) × (length state.now ≡ 1024) × (from + 32 ≤ length kept.now)
        × (from < 2 ^ 32) × (i < 4) × (12 ≤ (state_of state.now).homes) }
    ensures { result ≡ place_by log.now (state_of state.now) (8 + i) (number 8 kept.now (from + 8 * i)) }
{
    let position = base_codec::number(kept, from + 8 * i, 8);
    log_shown::place(log, state, 8 + i as u64, position)
}

// Whether a home lies in one of the four ranges from byte `at` of the list on, whose block has the place `found`. Two ask it, so that it
// stays a function of its own and `open_listed` is short enough to stand in the questions themselves.
fn own_ranges(log: &[u8], area: &[u8], found: usize, at: usize, home: u64) -> bool
    requires { (768 ≤ length area.now) × (at < 256) × (at % 64 + 16 ≤ 64) × (found ≢ 0 → (128 ≤ found) × (found + 64 ≤ length log.now)) }
    ensures { result ≡ in_ranges (block_from log.now area.now found (at / 64)) (at % 64) home 4 }
{
    if found == 0 {
        return in_ranges(area, 64 * (8 + at / 64) + at % 64, home);
    }
    in_entry(log, found, at % 64, home)
}

// Whether block `i` of the list, which has the place `found`, is all zeros.
fn is_zero(log: &[u8], area: &[u8], found: usize, i: usize) -> bool
    requires { (768 ≤ length area.now) × (i < 4) × (found ≢ 0 → (128 ≤ found) × (found + 64 ≤ length log.now)) }
    ensures { result ≡ same (block_from log.now area.now found i) (zeros 64) }
{
    if found == 0 {
        return zero_block(area, 64 * (8 + i));
    }
    zero_entry(log, found)
}

// The same for block `i`, where block `own` is known to be all zeros.
fn other_zero(
    log: &[u8],
    area: &[u8],
    state: &[u8],
    kept: &[u8],
    from: usize,
    own: usize,
    i: usize,
) -> bool
    requires { Listed log.now area.now (state_of state.now) kept.now from × (length state.now ≡ 1024)
        × (12 ≤ (state_of state.now).homes) × (i < 4)
        × (same (block_by log.now area.now (state_of state.now) kept.now from own) (zeros 64) ≡ true) }
    ensures { result ≡ same (block_by log.now area.now (state_of state.now) kept.now from i)
        (zeros 64) }
{
    if i == own {
        return true;
    }
    let found = place(log, state, kept, from, i);
    is_zero(log, area, found, i)
}

// Whether the whole list is all zeros, where block `own` is.
fn no_list(log: &[u8], area: &[u8], state: &[u8], kept: &[u8], from: usize, own: usize) -> bool
    requires { Listed log.now area.now (state_of state.now) kept.now from × (length state.now ≡ 1024)
        × (12 ≤ (state_of state.now).homes)
        × (same (block_by log.now area.now (state_of state.now) kept.now from own) (zeros 64) ≡ true) }
    ensures { result ≡ same (blocks_by log.now area.now (state_of state.now) kept.now from 4)
        (zeros 256) }
{
    let mut i: usize = 0;
    while i < 4 {
        if !other_zero(log, area, state, kept, from, own, i) {
            return false;
        }
        i += 1;
    }
    true
}

// Whether the whole list is all zeros.
pub fn all_zeros(log: &[u8], area: &[u8], state: &[u8], kept: &[u8], from: usize) -> bool
    requires { Listed log.now area.now (state_of state.now) kept.now from × (length state.now ≡ 1024)
        × (12 ≤ (state_of state.now).homes) }
    ensures { result ≡ same (blocks_by log.now area.now (state_of state.now) kept.now from 4)
        (zeros 256) }
{
    let found = place(log, state, kept, from, 0);
    if !is_zero(log, area, found, 0) {
        return false;
    }
    no_list(log, area, state, kept, from, 0)
}

// Whether the ranges from byte `at` of the list on open a home: only the writer's own block is looked up.
pub fn open_listed(
    log: &[u8],
    area: &[u8],
    state: &[u8],
    kept: &[u8],
    from: usize,
    at: usize,
    home: u64,
) -> bool
    requires { Listed log.now area.now (state_of state.now) kept.now from × (length state.now ≡ 1024)
        × (12 ≤ (state_of state.now).homes) × (at < 256) × (at % 64 + 16 ≤ 64) }
    ensures { result ≡ in_ranges (blocks_by log.now area.now (state_of state.now)
        kept.now from 4) at home 4 }
{
    let found = place(log, state, kept, from, at / 64);
    own_ranges(log, area, found, at, home)
}

// The same, or there is no list, by its blocks alone. The writer's own block is asked first.
fn open_kept(
    log: &[u8],
    area: &[u8],
    state: &[u8],
    kept: &[u8],
    from: usize,
    at: usize,
    home: u64,
) -> bool
    requires { Listed log.now area.now (state_of state.now) kept.now from × (length state.now ≡ 1024)
        × (12 ≤ (state_of state.now).homes) × (at < 256) × (at % 64 + 16 ≤ 64) }
    ensures { result ≡ opens (state_of state.now).homes
        (blocks_by log.now area.now (state_of state.now) kept.now from 4) at home }
{
    let found = place(log, state, kept, from, at / 64);
    if own_ranges(log, area, found, at, home) {
        return true;
    }
    all_zeros(log, area, state, kept, from)
}

// The same by the list's sign, where that says nothing. The data copy is looked at without the log if no position is kept.
pub fn open_unsigned(
    log: &[u8],
    area: &[u8],
    state: &[u8],
    kept: &[u8],
    from: usize,
    at: usize,
    home: u64,
) -> bool
    requires { Listed log.now area.now (state_of state.now) kept.now from × (length state.now ≡ 1024)
        × (12 ≤ (state_of state.now).homes) × (at < 256) × (at % 64 + 16 ≤ 64) × (list_sign state.now ≢ 1) × (list_sign state.now ≢ 2) }
    ensures { result ≡ opens_by (list_sign state.now) (state_of state.now).homes
        (blocks_by log.now area.now (state_of state.now) kept.now from 4) at home }
{
    if !none_kept(kept, from) {
        return open_kept(log, area, state, kept, from, at, home);
    }
    if in_ranges(area, 512 + at, home) {
        return true;
    }
    none_in_copy(area)
}
