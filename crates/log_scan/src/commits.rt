// The walk over the log's groups that applies the commit rule.
ghost use Rattle.std.specs.Prelude.{◌≡◌, true, ◌&&◌, ℕ, ◌+◌, ◌-◌, ◌*◌, ◌^◌, min, ◌<◌, ◌≤◌, eqb, length, get_or};
ghost use Rattle.model.specs.Bytes.{zeros};
ghost use Rattle.model.specs.Tag.{entry_word, field, read_tag};
ghost use Rattle.model.specs.Layout.{turn_of, entry_within, entry_at};
ghost use Rattle.model.specs.Commit.{linked, committed};
ghost use Rattle.model_laws.proofs.rule.Closings.{end_of};
ghost use Rattle.model_laws.proofs.rule.ClosingLaws.{last_at};
ghost use Rattle.log_scan.specs.Scan.{counted, decided, enter, Within, Stopped};

use super::groups::word_there;
use super::slots::{first_slot, next_slot};
use base_codec::{GROUP_SIZE, HEADER_SIZE};

// What the walk finds: one past the last committed closing entry, or 0 for none, and how many transactions are committed.
#[derive(Drop)]
pub struct Found {
    pub end: u64,
    pub number: u64,
}

// The walk so far: what it has found, and 1 once a closing entry has failed, else 0 (a word, since padding would slow the copies).
#[derive(Drop)]
pub struct Progress {
    pub end: u64,
    pub number: u64,
    pub failed: u64,
}

// Counts one entry more at index `i`, and returns how many there are now.
pub fn count_entry(counts: &mut [u16], i: usize) -> u64
    requires { (i < length counts.old) × (get_or counts.old i 0 < 7168) }
    ensures { (counts.new ≡ counted counts.old i) × (result ≡ get_or counts.old i 0 + 1) }
{
    let n = counts[i] + 1;
    counts[i] = n;
    n as u64
}

// Whether a closing entry at a position is linked, by its distance back, to the last one, which ends at `end`, or where there is none (0) to a
// position before the start or to none.
fn is_linked(end: u64, base: u64, position: u64, link: u64) -> bool
    requires { (position < 2 ^ 62) × (base ≤ position) × (link < 2 ^ 13) × (end ≤ position) }
    ensures { result ≡ linked base (last_at end) position link }
{
    if end != 0 {
        return position + 1 == end + link;
    }
    if link == 0 {
        return true;
    }
    position < base + link
}

// Takes a closing entry, complete or not, at a position: it is committed, or the first that fails.
pub fn decide(progress: Progress, base: u64, position: u64, link: u64, complete: bool) -> Progress
    requires { (position < 2 ^ 62) × (base ≤ position) × (link < 2 ^ 13) × (progress.end ≤ position) × (progress.number ≤ position) }
    ensures { result ≡ decided base position link complete progress }
{
    let end = progress.end;
    let number = progress.number;
    let failed = Progress {
        end,
        number,
        failed: 1,
    };
    if progress.failed != 0 {
        return failed;
    }
    if !is_linked(end, base, position, link) {
        return failed;
    }
    if !complete {
        return failed;
    }
    Progress {
        end: position + 1,
        number: number + 1,
        failed: 0,
    }
}

// Takes the word of an entry that does not close its transaction, at index `index` of the log; `above` is the word of an entry for the
// first home that there is not.
fn visit_plain(
    word: u64,
    above: u64,
    base: u64,
    index: u64,
    counts: &mut [u16],
    progress: Progress,
) -> Progress
    requires { (index < 7168) × (index < length counts.now)
        × ((eqb (field word 0 1) 1 && eqb (field word 58 6) 0 && eqb (field word 1 1) 0 && eqb (field word 27 26) 0) ≡ true)
        × Within base (base + index) (record { counts = counts.now; progress = progress }) }
    ensures { (homes : ℕ) → above ≡ entry_word homes 0 → record { counts = counts.exit.now; progress = result }
        ≡ enter base (base + index) (read_tag word (base + index) base homes)
        (record { counts = counts.entry.now; progress = progress }) }
{
    if !base_codec::has_home(word, above) {
        return progress;
    }
    let back = base_codec::tag_back(word);
    if index < back {
        return progress;
    }
    count_entry(counts, (index - back) as usize);
    progress
}

// The same for the word of a closing entry.
fn visit_closing(
    word: u64,
    above: u64,
    base: u64,
    index: u64,
    counts: &mut [u16],
    progress: Progress,
) -> Progress
    requires { (index < 7168) × (base < 2 ^ 61) × (index < length counts.now)
        × ((eqb (field word 0 1) 1 && eqb (field word 58 6) 0 && eqb (field word 1 1) 1) ≡ true)
        × Within base (base + index) (record { counts = counts.now; progress = progress }) }
    ensures { (homes : ℕ) → above ≡ entry_word homes 0 → record { counts = counts.exit.now; progress = result }
        ≡ enter base (base + index) (read_tag word (base + index) base homes)
        (record { counts = counts.entry.now; progress = progress }) }
{
    if !base_codec::has_home(word, above) {
        return progress;
    }
    let back = base_codec::tag_back(word);
    if index < back {
        return progress;
    }
    let count = base_codec::tag_count(word);
    if count == 0 {
        return progress;
    }
    let n = count_entry(counts, (index - back) as usize);
    decide(
        progress,
        base,
        base + index,
        base_codec::tag_link(word),
        n == count,
    )
}

// Takes what the word of a tag says at index `index` of the log.
fn visit(
    word: u64,
    above: u64,
    base: u64,
    index: u64,
    counts: &mut [u16],
    progress: Progress,
) -> Progress
    requires { (index < 7168) × (base < 2 ^ 61) × (index < length counts.now)
        × Within base (base + index) (record { counts = counts.now; progress = progress }) }
    ensures { (homes : ℕ) → above ≡ entry_word homes 0 → record { counts = counts.exit.now; progress = result }
        ≡ enter base (base + index) (read_tag word (base + index) base homes)
        (record { counts = counts.entry.now; progress = progress }) }
{
    if base_codec::is_plain(word) {
        return visit_plain(word, above, base, index, counts, progress);
    }
    if base_codec::is_closing(word) {
        return visit_closing(word, above, base, index, counts, progress);
    }
    progress
}

// Takes the first `m` tags of a group, or those up to the first closing entry that fails. The group says nothing where it is not the valid group with
// number `n` and turn `turn`.
fn visit_group(
    group: &[u8],
    groups: u64,
    homes: u64,
    start: u64,
    n: u64,
    turn: u64,
    m: usize,
    counts: &mut [u16],
    progress: Progress,
) -> Progress
    requires { (length group.now ≡ 512) × (groups ≤ 1024) × (homes ≤ 65535) × (start ≤ 2 ^ 47) × (start ≤ n) × (n < start + groups)
        × (turn ≡ turn_of groups n) × (m ≤ 7) × (7 * n + m ≤ 7 * start + length counts.now)
        × Within (7 * start) (7 * n) (record { counts = counts.now; progress = progress }) }
    ensures { Stopped (entry_within group.now groups homes start) (7 * start) (7 * n) m
        (record { counts = counts.entry.now; progress = progress }) (record { counts = counts.exit.now; progress = result }) }
{
    if !base_codec::has_group_head(group, 0, n) {
        return progress;
    }
    let above = base_codec::entry_word(homes, 0);
    let base = 7 * start;
    let index = 7 * n - base;
    let mut reached = progress;
    let mut k: usize = 0;
    while k < m {
        reached = visit(
            word_there(group, turn, k),
            above,
            base,
            index + k as u64,
            counts,
            reached,
        );
        if reached.failed != 0 {
            return reached;
        }
        k += 1;
    }
    reached
}

// How many of the `left` positions the next group has.
pub fn in_group(left: u64) -> usize
    ensures { result ≡ min left 7 }
{
    if left < 7 { left as usize } else { 7 }
}

// How many positions from `position` on lie before another.
pub fn skipped(position: u64, first: u64) -> usize
    ensures { result ≡ first - position }
{
    if first < position {
        return 0;
    }
    (first - position) as usize
}

// What the walk has found so far.
fn result(progress: Progress) -> Found
    ensures { (result.end ≡ progress.end) × (result.number ≡ progress.number) }
{
    Found {
        end: progress.end,
        number: progress.number,
    }
}

// Walks the `n` positions of the log from its start on, group by group, with empty counters, and finds where the committed transactions end
// and how many they are.
pub fn walk_with(
    log: &[u8],
    counts: &mut [u16],
    groups: u64,
    homes: u64,
    start: u64,
    n: u64,
) -> Found
    requires { (length log.now ≡ 64 + 512 * groups) × (4 ≤ groups) × (groups ≤ 1024) × (homes ≤ 65535) × (start ≤ 2 ^ 47)
        × (n ≤ 7 * groups) × (7 * groups ≤ length counts.old) × (counts.old ≡ zeros (length counts.old)) }
    ensures { (result.end ≡ end_of (committed (entry_at log.now groups homes start) (7 * start) n))
        × (result.number ≡ length (committed (entry_at log.now groups homes start) (7 * start) n)) }
{
    let mut progress = Progress {
        end: 0,
        number: 0,
        failed: 0,
    };
    let mut at = first_slot(start, groups);
    let mut number = start;
    let mut left = n;
    while left > 0 {
        let from = HEADER_SIZE + GROUP_SIZE * at.slot as usize;
        let group = &log[from..from + GROUP_SIZE];
        let m = in_group(left);
        progress = visit_group(
            group, groups, homes, start, number, at.turn, m, counts, progress,
        );
        if progress.failed != 0 {
            return result(progress);
        }
        at = next_slot(at, groups);
        number += 1;
        left -= m as u64;
    }
    result(progress)
}

// The same with counters of its own, for a log of up to 64 groups.
pub fn walk_small(log: &[u8], groups: u64, homes: u64, start: u64, n: u64) -> Found
    requires { (length log.now ≡ 64 + 512 * groups) × (4 ≤ groups) × (groups ≤ 64) × (homes ≤ 65535) × (start ≤ 2 ^ 47) × (n ≤ 7 * groups) }
    ensures { (result.end ≡ end_of (committed (entry_at log.now groups homes start) (7 * start) n))
        × (result.number ≡ length (committed (entry_at log.now groups homes start) (7 * start) n)) }
{
    let mut counts = [0u16; 448];
    walk_with(log, &mut counts, groups, homes, start, n)
}

// The same for a log of up to 128 groups, 256, 512 and 1,024: at most half of the counters are made empty for nothing.
fn walk_to_128(log: &[u8], groups: u64, homes: u64, start: u64, n: u64) -> Found
    requires { (length log.now ≡ 64 + 512 * groups) × (4 ≤ groups) × (groups ≤ 128) × (homes ≤ 65535) × (start ≤ 2 ^ 47) × (n ≤ 7 * groups) }
    ensures { (result.end ≡ end_of (committed (entry_at log.now groups homes start) (7 * start) n))
        × (result.number ≡ length (committed (entry_at log.now groups homes start) (7 * start) n)) }
{
    let mut counts = [0u16; 896];
    walk_with(log, &mut counts, groups, homes, start, n)
}

fn walk_to_256(log: &[u8], groups: u64, homes: u64, start: u64, n: u64) -> Found
    requires { (length log.now ≡ 64 + 512 * groups) × (4 ≤ groups) × (groups ≤ 256) × (homes ≤ 65535) × (start ≤ 2 ^ 47) × (n ≤ 7 * groups) }
    ensures { (result.end ≡ end_of (committed (entry_at log.now groups homes start) (7 * start) n))
        × (result.number ≡ length (committed (entry_at log.now groups homes start) (7 * start) n)) }
{
    let mut counts = [0u16; 1792];
    walk_with(log, &mut counts, groups, homes, start, n)
}

fn walk_to_512(log: &[u8], groups: u64, homes: u64, start: u64, n: u64) -> Found
    requires { (length log.now ≡ 64 + 512 * groups) × (4 ≤ groups) × (groups ≤ 512) × (homes ≤ 65535) × (start ≤ 2 ^ 47) × (n ≤ 7 * groups) }
    ensures { (result.end ≡ end_of (committed (entry_at log.now groups homes start) (7 * start) n))
        × (result.number ≡ length (committed (entry_at log.now groups homes start) (7 * start) n)) }
{
    let mut counts = [0u16; 3584];
    walk_with(log, &mut counts, groups, homes, start, n)
}

fn walk_to_1024(log: &[u8], groups: u64, homes: u64, start: u64, n: u64) -> Found
    requires { (length log.now ≡ 64 + 512 * groups) × (4 ≤ groups) × (groups ≤ 1024) × (homes ≤ 65535) × (start ≤ 2 ^ 47) × (n ≤ 7 * groups) }
    ensures { (result.end ≡ end_of (committed (entry_at log.now groups homes start) (7 * start) n))
        × (result.number ≡ length (committed (entry_at log.now groups homes start) (7 * start) n)) }
{
    let mut counts = [0u16; 7168];
    walk_with(log, &mut counts, groups, homes, start, n)
}

// The same for any log. This and `walk_small` serve two calls each, and so stay functions of their own: a small log never takes the
// counters of a large one.
pub fn walk_large(log: &[u8], groups: u64, homes: u64, start: u64, n: u64) -> Found
    requires { (length log.now ≡ 64 + 512 * groups) × (4 ≤ groups) × (groups ≤ 1024) × (homes ≤ 65535) × (start ≤ 2 ^ 47) × (n ≤ 7 * groups) }
    ensures { (result.end ≡ end_of (committed (entry_at log.now groups homes start) (7 * start) n))
        × (result.number ≡ length (committed (entry_at log.now groups homes start) (7 * start) n)) }
{
    if groups <= 128 {
        return walk_to_128(log, groups, homes, start, n);
    }
    if groups <= 256 {
        return walk_to_256(log, groups, homes, start, n);
    }
    if groups <= 512 {
        return walk_to_512(log, groups, homes, start, n);
    }
    walk_to_1024(log, groups, homes, start, n)
}
