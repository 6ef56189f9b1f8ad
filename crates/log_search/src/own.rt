// The newest entry for a home in a writer's open transaction: one pass over the log from its end back to the transaction's first position.
ghost use Rattle.std.specs.Prelude.{◌≡◌, ◌+◌, ◌-◌, ◌*◌, ◌^◌, ◌≤◌, ◌<◌, length};
ghost use Rattle.model.specs.Tag.{read_tag};
ghost use Rattle.model.specs.Layout.{turn_of, word_there, entry_within, entry_at};
ghost use Rattle.model.specs.Commit.{members, newest_in};
ghost use Rattle.log_scan.specs.Members.{taking, Stretch};
ghost use Rattle.log_search.specs.Codes.{code_of};
ghost use Rattle.log_search.specs.Own.{note_at, noted};

use crate::sought::{none_sought, sought_bits};
use base_codec::{GROUP_SIZE, HEADER_SIZE};
use model::Tag;

// The newest entry once one for a home is seen at a position.
fn note(written: u64, home: u64, position: u64, newest: u64) -> u64
    requires { position < 2 ^ 62 }
    ensures { result ≡ note_at home position written newest }
{
    if written != home {
        return newest;
    }
    position + 1
}

// The same if tag `k` of a group with turn `turn` is an entry of the transaction with first position `first`. Its distance back is compared
// before all else.
fn note_entry(
    group: &[u8],
    turn: u64,
    k: usize,
    position: u64,
    base: u64,
    homes: u64,
    first: u64,
    home: u64,
    newest: u64,
) -> u64
    requires { (length group.now ≡ 512) × (k < 7) × (first ≤ position) × (position < 2 ^ 62) }
    ensures { result ≡ taking first (note_at home) position (read_tag (word_there group.now turn k) position base homes) newest }
{
    if log_scan::back_in(group, turn, k) != position - first {
        return newest;
    }
    match log_scan::tag_there(group, turn, k, position, base, homes) {
        Tag::Nothing => newest,
        Tag::Entry(written, _) => note(written, home, position, newest),
        Tag::Closing(written, _, _, _) => note(written, home, position, newest),
    }
}

// The same for the transaction's entries among the first `m` of a group, which says nothing where it is not the valid group with number `n` and turn
// `turn`.
fn note_group(
    group: &[u8],
    groups: u64,
    homes: u64,
    start: u64,
    n: u64,
    turn: u64,
    m: usize,
    first: u64,
    home: u64,
    newest: u64,
) -> u64
    requires { (length group.now ≡ 512) × (groups ≤ 1024) × (start ≤ 2 ^ 47) × (n < start + 1024) × (turn ≡ turn_of groups n) × (m ≤ 7)
        × (first ≤ 7 * n + m) }
    ensures { result ≡ noted (entry_within group.now groups homes start) home first (7 * n) m newest }
{
    if !log_scan::group_valid(group, groups, start, n) {
        return newest;
    }
    let base = 7 * start;
    let mut latest = newest;
    let mut k = log_scan::skipped(7 * n, first);
    let mut position = 7 * n + k as u64;
    while k < m {
        latest = note_entry(group, turn, k, position, base, homes, first, home, latest);
        position += 1;
        k += 1;
    }
    latest
}

// The newest entry for a home of the transaction among all seven of a group, as its position + 1, 0 for none. Where none of the tags has the
// home and the distance of such an entry, nothing else of the group is looked at.
fn note_seven(
    group: &[u8],
    groups: u64,
    homes: u64,
    start: u64,
    n: u64,
    turn: u64,
    first: u64,
    home: u64,
) -> u64
    requires { (length group.now ≡ 512) × (groups ≤ 1024) × (start ≤ 2 ^ 47) × (n < start + 1024) × (turn ≡ turn_of groups n)
        × (7 * start ≤ first) × (first ≤ 7 * n + 7) × (home < 2 ^ 16) }
    ensures { result ≡ noted (entry_within group.now groups homes start) home first (7 * n) 7 0 }
{
    let position = 7 * n;
    if first <= position {
        if none_sought(group, sought_bits(home, position - first)) {
            return 0;
        }
    }
    note_group(group, groups, homes, start, n, turn, 7, first, home, 0)
}

// The newest entry for a home, as its position + 1, 0 for none, of the open transaction with first position `first`, below position `end`: the
// last group that has one is the first that is looked at.
pub fn newest_own(
    log: &[u8],
    groups: u64,
    homes: u64,
    start: u64,
    first: u64,
    end: u64,
    home: u64,
) -> u64
    requires { Stretch log.now groups start first end × (home < 2 ^ 16) }
    ensures { result ≡ code_of (newest_in (entry_at log.now groups homes start) home
        (members (entry_at log.now groups homes start) first (7 * start) (end - 7 * start))) }
{
    let lowest = first / 7;
    let mut number = (end - 1) / 7;
    let mut at = log_scan::first_slot(number, groups);
    let m = (end - 7 * number) as usize;
    let from = HEADER_SIZE + GROUP_SIZE * at.slot as usize;
    let group = &log[from..from + GROUP_SIZE];
    let mut newest = note_group(
        group, groups, homes, start, number, at.turn, m, first, home, 0,
    );
    while lowest < number {
        if newest != 0 {
            return newest;
        }
        at = log_scan::previous_slot(at, groups);
        number -= 1;
        let from = HEADER_SIZE + GROUP_SIZE * at.slot as usize;
        let group = &log[from..from + GROUP_SIZE];
        newest = note_seven(group, groups, homes, start, number, at.turn, first, home);
    }
    newest
}
