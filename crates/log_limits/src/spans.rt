// The highest start that no transaction of the closing entries below a position lies across: one pass over the log's groups, from the last down.
ghost use Rattle.std.specs.Prelude.{◌≡◌, true, ◌+◌, ◌-◌, ◌*◌, ◌/◌, ◌^◌, ◌≤◌, ◌<◌, length};
ghost use Rattle.model.specs.Tag.{field, read_tag};
ghost use Rattle.model.specs.Layout.{turn_of, word_there, entry_within, entry_at};
ghost use Rattle.model.specs.Effects.{none_across};
ghost use Rattle.model_laws.proofs.rule.Closings.{closings};
ghost use Rattle.log_limits.specs.Limits.{Highest, span_limit, lowered};
ghost use Rattle.log_scan.specs.Walk.{Walkable};

use base_codec::{GROUP_SIZE, HEADER_SIZE};
use model::Tag;

// A limit lowered to the group in which the transaction begins that the word of a tag closes, if it closes one.
fn word_limit(word: u64, position: u64, base: u64, homes: u64, limit: u64) -> u64
    ensures { result ≡ span_limit (read_tag word position base homes) limit }
{
    match base_codec::read_tag(word, position, base, homes) {
        Tag::Nothing => limit,
        Tag::Entry(_, _) => limit,
        Tag::Closing(_, first, _, _) => {
            let group = first / 7;
            if group < limit { group } else { limit }
        }
    }
}

// Whether the word of a tag, if it closes a transaction at a position, closes one that begins in group `limit` or after.
fn begins_after(word: u64, position: u64, limit: u64) -> bool
    ensures { result ≡ true → limit ≤ (position - field word 14 13) / 7 }
{
    let back = base_codec::tag_back(word);
    if position < back {
        return false;
    }
    if (position - back) / 7 < limit {
        return false;
    }
    true
}

// The same for tag `k` of a group with turn `turn`. A tag that closes nothing, or a transaction that begins at the limit or after it, is
// passed whatever its data block is.
fn tag_limit(
    group: &[u8],
    turn: u64,
    k: usize,
    position: u64,
    base: u64,
    homes: u64,
    limit: u64,
) -> u64
    requires { (length group.now ≡ 512) × (k < 7) }
    ensures { result ≡ span_limit (read_tag (word_there group.now turn k) position base homes) limit }
{
    let word = base_codec::number(group, 8 + 8 * k, 8);
    if word & 2 == 0 {
        return limit;
    }
    if begins_after(word, position, limit) {
        return limit;
    }
    word_limit(
        log_scan::word_there(group, turn, k),
        position,
        base,
        homes,
        limit,
    )
}

// A limit lowered by the first `m` tags of a group, which says nothing where it is not the valid group with number `n` and turn `turn`.
fn group_limit(
    group: &[u8],
    groups: u64,
    homes: u64,
    start: u64,
    n: u64,
    turn: u64,
    m: usize,
    limit: u64,
) -> u64
    requires { (length group.now ≡ 512) × (groups ≤ 1024) × (start ≤ 2 ^ 47) × (n < start + 1024) × (turn ≡ turn_of groups n) × (m ≤ 7) }
    ensures { result ≡ lowered (entry_within group.now groups homes start) (7 * n) m limit }
{
    if !log_scan::group_valid(group, groups, start, n) {
        return limit;
    }
    let base = 7 * start;
    let mut lowest = limit;
    let mut position = 7 * n;
    let mut k: usize = 0;
    while k < m {
        lowest = tag_limit(group, turn, k, position, base, homes, lowest);
        position += 1;
        k += 1;
    }
    lowest
}

// The highest start up to `limit` that no transaction of a closing entry below `end` lies across.
pub fn closed_limit(log: &[u8], groups: u64, homes: u64, start: u64, end: u64, limit: u64) -> u64
    requires { Walkable log.now groups start end × (start ≤ limit) × (limit ≤ start + groups) }
    ensures { (start ≤ result)
        × Highest (λ s. none_across (7 * s) (closings (entry_at log.now groups homes start) (7 * start) (end - 7 * start))) limit result }
{
    let mut lowest = limit;
    let mut number = (end + 6) / 7;
    let mut at = log_scan::first_slot(number, groups);
    while number > lowest {
        number -= 1;
        at = log_scan::previous_slot(at, groups);
        let from = HEADER_SIZE + GROUP_SIZE * at.slot as usize;
        let group = &log[from..from + GROUP_SIZE];
        let m = log_scan::in_group(end - 7 * number);
        lowest = group_limit(group, groups, homes, start, number, at.turn, m, lowest);
    }
    lowest
}
