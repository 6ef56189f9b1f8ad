// Question 2 as a whole.
ghost use Rattle.std.specs.Prelude.{◌≡◌, ◌≤◌, length};
ghost use Rattle.model.specs.State.{is_in_order};

use crate::numbers::{bounds_in_order, groups_in_order};
use crate::pending::pending_in_order;
use crate::records::records_in_order;
use base_state::{filled, next, none_promised, round, start};

// Question 2 for a log of `groups` groups and `homes` homes. What is mostly not there is asked for last, by a function of its own. [S-48]
pub fn whole_in_order(s: &[u8], groups: u64, homes: u64) -> bool
    requires { (length s.now ≡ 1024) × (groups ≤ 1024) }
    ensures { result ≡ is_in_order s.now groups homes }
{
    if !groups_in_order(s, groups, homes) {
        return false;
    }
    let start = start(s);
    let low = 7 * start;
    let whole = 7 * (next(s) - start);
    let all = whole + filled(s);
    if !bounds_in_order(s, low, whole, all) {
        return false;
    }
    if !records_in_order(s, homes, low, all) {
        return false;
    }
    if round(s) != 0 {
        return pending_in_order(s);
    }
    if !none_promised(s) {
        return pending_in_order(s);
    }
    true
}
