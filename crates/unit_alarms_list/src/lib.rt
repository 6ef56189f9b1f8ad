// Open alarms: what their six home blocks hold, and what an arrival and a clearing make of them.
#![tactic(auto)]

mod fields;
mod list;

ghost use Rattle.std.specs.Prelude.{◌≡◌, ◌≤◌, length};
ghost use Rattle.unit_alarms_list.specs.Alarm.{alarm};
ghost use Rattle.unit_alarms_list.specs.OpenAlarms.{gravest_kept};
ghost use Rattle.unit_alarms_list.specs.Events.{arrival, clearing, leaves, applied};

use fields::alarm_at;
pub use fields::class_known;
use list::{find, open_count, with_one, without_one};

// An open alarm: who raises it, how grave it is, and when it came.
#[derive(Clone, Copy)]
pub struct Alarm {
    pub identity: u64,
    pub class: u64,
    pub second: u64,
}

// An arrival: 0 for done, 24 or 25. `output` gets the blocks of the new list; a refusal leaves it as it was.
pub fn arrive(list: &[u8], output: &mut [u8], identity: u16, class: u64, second: u32) -> u64
    requires { (length list.now ≡ 384) × (length output.old ≡ 384) }
    ensures { leaves result output.new ≡ applied list.now output.old (arrival (alarm identity class second)) }
{
    if !class_known(class) {
        return 24;
    }
    let n = open_count(list);
    if find(list, n, identity as u64) < n {
        return 24;
    }
    if n >= 48 {
        return 25;
    }
    with_one(
        output,
        list,
        n,
        Alarm {
            identity: identity as u64,
            class,
            second: second as u64,
        },
    );
    0
}

// A clearing: 0 for done, or 24. `output` gets the blocks of the new list; a refusal leaves it as it was.
pub fn clear(list: &[u8], output: &mut [u8], identity: u16) -> u64
    requires { (length list.now ≡ 384) × (length output.old ≡ 384) }
    ensures { leaves result output.new ≡ applied list.now output.old (clearing identity) }
{
    let n = open_count(list);
    let i = find(list, n, identity as u64);
    if i >= n {
        return 24;
    }
    without_one(output, list, n, i);
    0
}

// The gravest open alarm, three zeros if there is none, from the first of the six blocks.
pub fn gravest(block: &[u8]) -> Alarm
    requires { 64 ≤ length block.now }
    ensures { result ≡ gravest_kept block.now }
{
    alarm_at(block, 1)
}
