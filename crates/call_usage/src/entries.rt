// The entries of the committed transactions: the walk finds where they end, and every closing entry below that counts its own.
ghost use Rattle.std.specs.Prelude.{◌≡◌, ◌+◌, ◌-◌, ◌*◌, ◌^◌, ◌≤◌, ◌<◌, length};
ghost use Rattle.model.specs.Tag.{read_tag};
ghost use Rattle.model.specs.Layout.{turn_of, entry_within, entry_at};
ghost use Rattle.model.specs.Commit.{committed, transactions};
ghost use Rattle.model_laws.proofs.rule.Closings.{end_of};
ghost use Rattle.abstract_store.specs.Usage.{entries_in};
ghost use Rattle.log_scan.specs.Walk.{Walkable};
ghost use Rattle.call_usage.specs.Sums.{add_count, summed};

use base_codec::{GROUP_SIZE, HEADER_SIZE};
use model::Tag;

// A sum with the number of entries that the word of a tag counts, if it closes a transaction.
fn word_entries(word: u64, position: u64, base: u64, homes: u64, sum: u64) -> u64
    requires { sum < 2 ^ 32 }
    ensures { (result ≡ add_count (read_tag word position base homes) sum) × (result < sum + 2 ^ 13) }
{
    match base_codec::read_tag(word, position, base, homes) {
        Tag::Nothing => sum,
        Tag::Entry(_, _) => sum,
        Tag::Closing(_, _, _, count) => sum + count,
    }
}

// A sum with those of the first `m` tags of a group, which says nothing where it is not the valid group with number `n` and turn `turn`.
fn group_entries(
    group: &[u8],
    groups: u64,
    homes: u64,
    start: u64,
    n: u64,
    turn: u64,
    m: usize,
    sum: u64,
) -> u64
    requires { (length group.now ≡ 512) × (groups ≤ 1024) × (start ≤ 2 ^ 47) × (n < start + 1024) × (turn ≡ turn_of groups n) × (m ≤ 7)
        × (sum < 2 ^ 31) }
    ensures { (result ≡ summed (entry_within group.now groups homes start) (7 * n) m sum) × (result ≤ sum + 2 ^ 13 * m) }
{
    if !log_scan::group_valid(group, groups, start, n) {
        return sum;
    }
    let words = log_scan::tag_words(group, turn);
    let base = 7 * start;
    let mut total = sum;
    let mut position = 7 * n;
    let mut k: usize = 0;
    while k < m {
        total = word_entries(words[k], position, base, homes, total);
        position += 1;
        k += 1;
    }
    total
}

// The entries that all closing entries below `end` count.
fn closed_entries(log: &[u8], groups: u64, homes: u64, start: u64, end: u64) -> u64
    requires { Walkable log.now groups start end }
    ensures { (result ≡ summed (entry_at log.now groups homes start) (7 * start) (end - 7 * start) 0)
        × (result ≤ 2 ^ 13 * (end - 7 * start)) }
{
    let base = 7 * start;
    if end <= base {
        return 0;
    }
    let mut sum: u64 = 0;
    let mut left = end - base;
    let mut number = start;
    let mut at = log_scan::first_slot(start, groups);
    while left > 0 {
        let from = HEADER_SIZE + GROUP_SIZE * at.slot as usize;
        let group = &log[from..from + GROUP_SIZE];
        let m = log_scan::in_group(left);
        sum = group_entries(group, groups, homes, start, number, at.turn, m, sum);
        at = log_scan::next_slot(at, groups);
        number += 1;
        left -= m as u64;
    }
    sum
}

// Where the committed transactions end among the `n` positions of the log from its start on, or 0 for none.
fn committed_end(log: &[u8], groups: u64, homes: u64, start: u64, n: u64) -> u64
    requires { (length log.now ≡ 64 + 512 * groups) × (4 ≤ groups) × (groups ≤ 1024) × (homes ≤ 65535) × (start ≤ 2 ^ 47) × (n ≤ 7 * groups) }
    ensures { result ≡ end_of (committed (entry_at log.now groups homes start) (7 * start) n) }
{
    if groups <= 64 {
        let found = log_scan::walk_small(log, groups, homes, start, n);
        return found.end;
    }
    let found = log_scan::walk_large(log, groups, homes, start, n);
    found.end
}

// The entries of the transactions that are committed among the `n` positions of the log from its start on.
pub fn committed_entries(log: &[u8], groups: u64, homes: u64, start: u64, n: u64) -> u64
    requires { (length log.now ≡ 64 + 512 * groups) × (4 ≤ groups) × (groups ≤ 1024) × (homes ≤ 65535) × (start ≤ 2 ^ 47) × (n ≤ 7 * groups) }
    ensures { (result ≡ entries_in (transactions (entry_at log.now groups homes start) (7 * start) n)) × (result ≤ 2 ^ 13 * 7168) }
{
    let end = committed_end(log, groups, homes, start, n);
    closed_entries(log, groups, homes, start, end)
}
