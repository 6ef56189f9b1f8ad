// The numbers of the state strip but those of the writers, eight bytes each.
ghost use Rattle.std.specs.Prelude.{◌≡◌, ◌+◌, ◌*◌, ◌^◌, ◌<◌, length};
ghost use Rattle.model.specs.Bytes.{zeros};
ghost use Rattle.model.specs.State.{state_bytes, state_of, set_groups, set_homes, set_start, set_next, set_filled, set_settled, set_fenced, set_durable, set_last, set_round, set_cursor, next_position, fresh_numbers, fresh_state};

use crate::listed::{set_list_sign, set_listed};
use base_codec::STATE_SIZE;
use model::State;

// Reads the eleven numbers of the strip `s`.
pub fn state(s: &[u8]) -> State
    requires { length s.now ≡ 1024 }
    ensures { result ≡ state_of s.now }
{
    let groups = base_codec::number(s, 0, 8);
    let homes = base_codec::number(s, 8, 8);
    let start = base_codec::number(s, 16, 8);
    let next = base_codec::number(s, 24, 8);
    let filled = base_codec::number(s, 32, 8);
    let settled = base_codec::number(s, 40, 8);
    let fenced = base_codec::number(s, 48, 8);
    let durable = base_codec::number(s, 56, 8);
    let last = base_codec::number(s, 64, 8);
    let round = base_codec::number(s, 88, 8);
    let cursor = base_codec::number(s, 96, 8);
    State {
        groups,
        homes,
        start,
        next,
        filled,
        settled,
        fenced,
        durable,
        last,
        round,
        cursor,
    }
}

// The number of groups.
pub fn number_of_groups(s: &[u8]) -> u64
    requires { length s.now ≡ 1024 }
    ensures { (result ≡ (state_of s.now).groups) × (result < 2 ^ 64) }
{
    base_codec::number(s, 0, 8)
}

// The number of homes.
pub fn number_of_homes(s: &[u8]) -> u64
    requires { length s.now ≡ 1024 }
    ensures { (result ≡ (state_of s.now).homes) × (result < 2 ^ 64) }
{
    base_codec::number(s, 8, 8)
}

// The lowest live group number.
pub fn start(s: &[u8]) -> u64
    requires { length s.now ≡ 1024 }
    ensures { (result ≡ (state_of s.now).start) × (result < 2 ^ 64) }
{
    base_codec::number(s, 16, 8)
}

// The number of the next group.
pub fn next(s: &[u8]) -> u64
    requires { length s.now ≡ 1024 }
    ensures { (result ≡ (state_of s.now).next) × (result < 2 ^ 64) }
{
    base_codec::number(s, 24, 8)
}

// How many places of the next group are filled.
pub fn filled(s: &[u8]) -> u64
    requires { length s.now ≡ 1024 }
    ensures { (result ≡ (state_of s.now).filled) × (result < 2 ^ 64) }
{
    base_codec::number(s, 32, 8)
}

// The settled position.
pub fn settled(s: &[u8]) -> u64
    requires { length s.now ≡ 1024 }
    ensures { (result ≡ (state_of s.now).settled) × (result < 2 ^ 64) }
{
    base_codec::number(s, 40, 8)
}

// The fenced position.
pub fn fenced(s: &[u8]) -> u64
    requires { length s.now ≡ 1024 }
    ensures { (result ≡ (state_of s.now).fenced) × (result < 2 ^ 64) }
{
    base_codec::number(s, 48, 8)
}

// The durable mark.
pub fn durable(s: &[u8]) -> u64
    requires { length s.now ≡ 1024 }
    ensures { (result ≡ (state_of s.now).durable) × (result < 2 ^ 64) }
{
    base_codec::number(s, 56, 8)
}

// The last closing entry's position + 1, or 0 for none.
pub fn last(s: &[u8]) -> u64
    requires { length s.now ≡ 1024 }
    ensures { (result ≡ (state_of s.now).last) × (result < 2 ^ 64) }
{
    base_codec::number(s, 64, 8)
}

// The fenced position that the round under way has fixed + 1, or 0 for no round.
pub fn round(s: &[u8]) -> u64
    requires { length s.now ≡ 1024 }
    ensures { (result ≡ (state_of s.now).round) × (result < 2 ^ 64) }
{
    base_codec::number(s, 88, 8)
}

// Stores `v` as the number of groups, and leaves the rest of the strip as it was.
fn set_groups(s: &mut [u8], v: u64)
    requires { length s.old ≡ 1024 }
    ensures { s.new ≡ set_groups s.old v }
{
    base_codec::put_number(s, 0, 8, v)
}

// Stores `v` as the number of homes, and leaves the rest of the strip as it was.
fn set_homes(s: &mut [u8], v: u64)
    requires { length s.old ≡ 1024 }
    ensures { s.new ≡ set_homes s.old v }
{
    base_codec::put_number(s, 8, 8, v)
}

// Stores `v` as the lowest live group number, and leaves the rest of the strip as it was.
pub fn set_start(s: &mut [u8], v: u64)
    requires { length s.old ≡ 1024 }
    ensures { s.new ≡ set_start s.old v }
{
    base_codec::put_number(s, 16, 8, v)
}

// Stores `v` as the number of the next group, and leaves the rest of the strip as it was.
pub fn set_next(s: &mut [u8], v: u64)
    requires { length s.old ≡ 1024 }
    ensures { s.new ≡ set_next s.old v }
{
    base_codec::put_number(s, 24, 8, v)
}

// Stores `v` as how many places of the next group are filled, and leaves the rest of the strip as it was.
pub fn set_filled(s: &mut [u8], v: u64)
    requires { length s.old ≡ 1024 }
    ensures { s.new ≡ set_filled s.old v }
{
    base_codec::put_number(s, 32, 8, v)
}

// Stores `v` as the settled position, and leaves the rest of the strip as it was.
pub fn set_settled(s: &mut [u8], v: u64)
    requires { length s.old ≡ 1024 }
    ensures { s.new ≡ set_settled s.old v }
{
    base_codec::put_number(s, 40, 8, v)
}

// Stores `v` as the fenced position, and leaves the rest of the strip as it was.
pub fn set_fenced(s: &mut [u8], v: u64)
    requires { length s.old ≡ 1024 }
    ensures { s.new ≡ set_fenced s.old v }
{
    base_codec::put_number(s, 48, 8, v)
}

// Stores `v` as the durable mark, and leaves the rest of the strip as it was.
pub fn set_durable(s: &mut [u8], v: u64)
    requires { length s.old ≡ 1024 }
    ensures { s.new ≡ set_durable s.old v }
{
    base_codec::put_number(s, 56, 8, v)
}

// Stores `v`, the last closing entry's position + 1 or 0 for none, and leaves the rest of the strip as it was.
pub fn set_last(s: &mut [u8], v: u64)
    requires { length s.old ≡ 1024 }
    ensures { s.new ≡ set_last s.old v }
{
    base_codec::put_number(s, 64, 8, v)
}

// Stores `v`, the fenced position that the round under way has fixed + 1 or 0 for no round, and leaves the rest of the strip as it was.
pub fn set_round(s: &mut [u8], v: u64)
    requires { length s.old ≡ 1024 }
    ensures { s.new ≡ set_round s.old v }
{
    base_codec::put_number(s, 88, 8, v)
}

// Stores `v` as the round's cursor, and leaves the rest of the strip as it was.
pub fn set_cursor(s: &mut [u8], v: u64)
    requires { length s.old ≡ 1024 }
    ensures { s.new ≡ set_cursor s.old v }
{
    base_codec::put_number(s, 96, 8, v)
}

// The position of the next entry: seven for each group before the next one, and the places that are filled.
pub fn next_position(st: State) -> u64
    requires { 7 * st.next + st.filled < 2 ^ 64 }
    ensures { result ≡ next_position st }
{
    7 * st.next + st.filled
}

// Makes every byte of the strip zero.
fn clear(s: &mut [u8])
    requires { length s.old ≡ 1024 }
    ensures { s.new ≡ zeros state_bytes }
{
    base_codec::clear(s, 0, STATE_SIZE)
}

// Makes `s` the numbers of an opened store whose log is empty at the group number `start`, and else zeros.
fn fresh_numbers(s: &mut [u8], groups: u64, homes: u64, start: u64)
    requires { (length s.old ≡ 1024) × (7 * start < 2 ^ 64) }
    ensures { s.new ≡ fresh_numbers groups homes start }
{
    clear(s);
    set_groups(s, groups);
    set_homes(s, homes);
    set_start(s, start);
    set_next(s, start);
    let position = 7 * start;
    set_settled(s, position);
    set_fenced(s, position);
    set_durable(s, position);
}

// Makes `s` the strip of an opened store whose log is empty at the group number `start`: no position of the list of rights is kept, and
// `sign` is its sign.
pub fn fresh(s: &mut [u8], groups: u64, homes: u64, start: u64, sign: u64)
    requires { (length s.old ≡ 1024) × (7 * start < 2 ^ 64) }
    ensures { s.new ≡ fresh_state groups homes start sign }
{
    fresh_numbers(s, groups, homes, start);
    set_listed(s, &[255u8; 32]);
    set_list_sign(s, sign);
}
