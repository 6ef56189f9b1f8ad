// Commit keeps the position of each entry of its transaction: one pass over the log from the transaction's first position to its closing one.
ghost use Rattle.std.specs.Prelude.{◌≡◌, List, ℕ, ◌+◌, ◌-◌, ◌*◌, ◌^◌, ◌≤◌, ◌<◌, length};
ghost use Rattle.model.specs.Layout.{entry_at};
ghost use Rattle.model.specs.Commit.{entries};
ghost use Rattle.model.specs.Newest.{keep_entries};
ghost use Rattle.log_scan.specs.Members.{Stretch};
ghost use Rattle.log_scan.specs.Slots.{SlotOf};
ghost use Rattle.log_newest.specs.Keeping.{kept_over, taken_to, Passed};

use crate::groups::{keep_alone, keep_between, keep_whole};
use base_codec::{GROUP_SIZE, HEADER_SIZE};
use log_scan::RingSlot;

// How far the pass has come: to tag `done` of the group with number `number`, which lies at `at`.
#[derive(Clone, Copy)]
pub struct Pass {
    pub number: u64,
    pub at: RingSlot,
    pub done: usize,
}

// Keeps the transaction's entries of the pass's group that are left below its tag `m`.
fn keep_rest(
    log: &[u8],
    groups: u64,
    homes: u64,
    start: u64,
    first: u64,
    pass: Pass,
    m: usize,
    newest: &mut [u8],
)
    requires { (length log.now ≡ 64 + 512 * groups) × (groups ≤ 1024) × (homes ≤ 65535) × (start ≤ 2 ^ 47)
        × (pass.number < start + groups) × SlotOf groups pass.number pass.at × (pass.done ≤ m) × (m ≤ 7) × (7 * start ≤ first)
        × (first ≤ 7 * pass.number + pass.done) × (start ≤ pass.number) × (length newest.old ≡ 8 * homes) }
    ensures { (before : List ℕ) → newest.old
        ≡ taken_to log.now groups homes start first pass.number pass.done before → newest.new
        ≡ kept_over (entry_at log.now groups homes start) first (7 * start) (7 * pass.number + m - 7 * start) before }
{
    let at = pass.at;
    let from = HEADER_SIZE + GROUP_SIZE * at.slot as usize;
    let group = &log[from..from + GROUP_SIZE];
    keep_between(
        group,
        groups,
        homes,
        start,
        pass.number,
        at.turn,
        pass.done,
        m,
        first,
        newest,
    )
}

// Keeps the transaction's entries of the groups from number `from` on that lie whole below position `end`, as long as their tags are plain.
fn keep_groups(
    log: &[u8],
    groups: u64,
    homes: u64,
    start: u64,
    first: u64,
    end: u64,
    from: u64,
    ring: RingSlot,
    newest: &mut [u8],
) -> Pass
    requires { Stretch log.now groups start first end × (homes ≤ 65535) × (start ≤ from) × (first ≤ 7 * from) × (7 * from ≤ end)
        × SlotOf groups from ring × (length newest.old ≡ 8 * homes) }
    ensures { Passed log.now groups homes start first end from result newest.old newest.new }
{
    let mut number = from;
    let mut at = ring;
    while 7 * number + 7 <= end {
        let byte = HEADER_SIZE + GROUP_SIZE * at.slot as usize;
        let group = &log[byte..byte + GROUP_SIZE];
        let done = keep_whole(group, groups, homes, start, number, at.turn, first, newest);
        if done != 7 {
            return Pass { number, at, done };
        }
        at = log_scan::next_slot(at, groups);
        number += 1;
    }
    Pass {
        number,
        at,
        done: 0,
    }
}

// Keeps the position of each entry of the transaction from position `first` to the closing one, so that the later position wins.
pub fn keep_entries(
    log: &[u8],
    groups: u64,
    homes: u64,
    start: u64,
    first: u64,
    closing: u64,
    newest: &mut [u8],
)
    requires { Stretch log.now groups start first (closing + 1) × (homes ≤ 65535) × (length newest.old ≡ 8 * homes) }
    ensures { newest.new
        ≡ keep_entries (entry_at log.now groups homes start)
        (entries (entry_at log.now groups homes start) (7 * start) (record { first = first; closing = closing }))
        newest.old }
{
    let number = first / 7;
    let at = log_scan::first_slot(number, groups);
    let end = closing + 1;
    let mut pass = Pass {
        number,
        at,
        done: (first - 7 * number) as usize,
    };
    while 7 * pass.number + 7 <= end {
        keep_rest(log, groups, homes, start, first, pass, 7, newest);
        let next = log_scan::next_slot(pass.at, groups);
        pass = keep_groups(
            log,
            groups,
            homes,
            start,
            first,
            end,
            pass.number + 1,
            next,
            newest,
        );
    }
    let left = end - 7 * pass.number;
    if left == 0 {
        return;
    }
    keep_rest(
        log,
        groups,
        homes,
        start,
        first,
        pass,
        left as usize,
        newest,
    )
}

// The same for a transaction of its closing entry alone, at index `k` of the group with number `number`.
pub fn keep_one(
    log: &[u8],
    groups: u64,
    homes: u64,
    start: u64,
    number: u64,
    k: usize,
    newest: &mut [u8],
)
    requires { Stretch log.now groups start (7 * number + k) (7 * number + k + 1) × (k < 7) × (homes ≤ 65535)
        × (length newest.old ≡ 8 * homes) }
    ensures { newest.new
        ≡ keep_entries (entry_at log.now groups homes start)
        (entries (entry_at log.now groups homes start) (7 * start) (record { first = 7 * number + k; closing = 7 * number + k }))
        newest.old }
{
    let ring = log_scan::first_slot(number, groups);
    let from = HEADER_SIZE + GROUP_SIZE * ring.slot as usize;
    let group = &log[from..from + GROUP_SIZE];
    keep_alone(group, groups, homes, start, number, ring.turn, k, newest)
}
