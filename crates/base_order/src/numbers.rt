// Question 2's tests of the strip's numbers but the round, in the order in which each number is read where it is compared.
ghost use Rattle.std.specs.Prelude.{◌≡◌, true, false, ◌+◌, ◌≤◌, length};
ghost use Rattle.model.specs.State.{state_of, numbers_in_order, is_in_order};
ghost use Rattle.base_state.specs.Order.{Agrees, BoundsInOrder, Live};

use crate::distances::distance;
use base_codec::MAX_START;
use base_state::{
    durable, fenced, filled, last, next, number_of_groups, number_of_homes, settled, start,
};

// Whether the numbers of groups and homes are `groups` and `homes`, and the group numbers and the places filled are in order.
pub fn groups_in_order(s: &[u8], groups: u64, homes: u64) -> bool
    requires { (length s.now ≡ 1024) × (groups ≤ 1024) }
    ensures { (result ≡ true → Agrees (state_of s.now) groups homes) × (result ≡ false → false ≡ is_in_order s.now groups homes) }
{
    if number_of_groups(s) != groups {
        return false;
    }
    if number_of_homes(s) != homes {
        return false;
    }
    let start = start(s);
    if MAX_START < start {
        return false;
    }
    let filled = filled(s);
    if 6 < filled {
        return false;
    }
    let used = distance(next(s), start);
    if used < groups {
        return true;
    }
    if used != groups {
        return false;
    }
    filled == 0
}

// Whether the other numbers but the round are in order, where the log has `whole` positions from position `low` to the next group, and
// `all` with those filled. What lies between two others is compared once, by its distance from the lower one.
pub fn bounds_in_order(s: &[u8], low: u64, whole: u64, all: u64) -> bool
    requires { (length s.now ≡ 1024) × Live (state_of s.now) low all × (whole + (state_of s.now).filled ≡ all) }
    ensures { (result ≡ true → BoundsInOrder (state_of s.now)) × (result ≡ false → false ≡ numbers_in_order (state_of s.now)) }
{
    let end = fenced(s);
    if end < durable(s) {
        return false;
    }
    let fenced = distance(end, low);
    if whole < fenced {
        return false;
    }
    if fenced < distance(settled(s), low) {
        return false;
    }
    last(s) <= low + all
}
