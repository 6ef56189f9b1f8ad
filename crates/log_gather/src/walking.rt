// The pass over the log that applies the commit rule and chains the entries of each word of homes. A transaction's cell, by its first
// position, counts its entries until a closing entry of it is committed; from then on it holds that closing entry, above a mark.
ghost use Rattle.std.specs.Prelude.{◌≡◌, ℕ, ◌+◌, ◌-◌, ◌*◌, ◌^◌, ◌≤◌, ◌<◌, true, ◌&&◌, List, eqb, length, get_or};
ghost use Rattle.model.specs.Tag.{entry_word, field, home_field, read_tag};
ghost use Rattle.model.specs.Layout.{turn_of, entry_within, entry_at};
ghost use Rattle.model.specs.Commit.{committed};
ghost use Rattle.model_laws.proofs.rule.Closings.{end_of};
ghost use Rattle.log_scan.specs.Scan.{over};
ghost use Rattle.log_gather.specs.Chains.{Roomy, Empty, Chained};
ghost use Rattle.log_gather.specs.Walks.{closer_in, Dropped, strayed, join_entry, join_closing, join, Passed};

use super::gathering::chain;
use base_codec::{GROUP_SIZE, HEADER_SIZE};
use log_scan::Progress;

// What the offset of a closing entry in a cell is added to.
const CLOSED: u16 = 0x8000;

// The walk that an entry after its transaction's closing one stops: it has found nothing.
fn astray(progress: Progress) -> Progress
    ensures { result ≡ strayed progress }
{
    Progress {
        end: progress.end,
        number: progress.number,
        failed: 2,
    }
}

// Takes the entry at an offset, whose transaction's first entry is at the offset `first`.
fn join_entry(
    cells: &mut [u16],
    heads: &mut [u16],
    links: &mut [u16],
    home: u64,
    first: usize,
    offset: usize,
    progress: Progress,
) -> Progress
    requires { (first < length cells.old) × (offset < length cells.old) × (offset < 7168) × (home < 65536)
        × Roomy 0 (length cells.old) cells.old heads.old links.old }
    ensures { record { cells = cells.exit.now; heads = heads.new; links = links.new; progress = result }
        ≡ join_entry home offset first
        (record { cells = cells.entry.now; heads = heads.old; links = links.old; progress = progress }) }
{
    let cell = cells[first];
    if CLOSED <= cell {
        return astray(progress);
    }
    cells[first] = cell + 1;
    chain(heads, links, (home / 64) as usize, offset);
    progress
}

// Takes the closing entry at a position: if it is committed, its transaction's cell holds it from now on.
fn join_closing(
    cells: &mut [u16],
    heads: &mut [u16],
    links: &mut [u16],
    base: u64,
    position: u64,
    home: u64,
    first: usize,
    link: u64,
    count: u64,
    progress: Progress,
) -> Progress
    requires { (base ≤ position) × (position < base + 7168) × (position < 2 ^ 62) × (link < 2 ^ 13) × (progress.end ≤ position)
        × (progress.number ≤ position)
        × (position < base + length cells.old) × (first < length cells.old) × (home < 65536)
        × Roomy 0 (length cells.old) cells.old heads.old links.old }
    ensures { record { cells = cells.exit.now; heads = heads.new; links = links.new; progress = result }
        ≡ join_closing base position home first link count
        (record { cells = cells.entry.now; heads = heads.old; links = links.old; progress = progress }) }
{
    let cell = cells[first];
    if CLOSED <= cell {
        return astray(progress);
    }
    let judged = log_scan::decide(progress, base, position, link, cell as u64 + 1 == count);
    if judged.failed != 0 {
        return judged;
    }
    let offset = (position - base) as usize;
    cells[first] = CLOSED + (offset + 1) as u16;
    chain(heads, links, (home / 64) as usize, offset);
    judged
}

// The home that a word holds, used or not.
fn tag_home(word: u64) -> u64
    ensures { result ≡ home_field word }
{
    ((word >> 2) & 0xfff) + 4096 * ((word >> 53) & 0xf)
}

// Takes the word of an entry that does not close its transaction, at index `index` of the log; `above` is the word of an entry for the
// first home that there is not.
fn visit_plain(
    word: u64,
    above: u64,
    base: u64,
    index: u64,
    cells: &mut [u16],
    heads: &mut [u16],
    links: &mut [u16],
    progress: Progress,
) -> Progress
    requires { (index < 7168) × (index < length cells.old) × (progress.failed ≡ 0)
        × ((eqb (field word 0 1) 1 && eqb (field word 58 6) 0 && eqb (field word 1 1) 0 && eqb (field word 27 26) 0) ≡ true)
        × Roomy 0 (length cells.old) cells.old heads.old links.old }
    ensures { (homes : ℕ) → above ≡ entry_word homes 0
        → record { cells = cells.exit.now; heads = heads.new; links = links.new; progress = result }
        ≡ join base (base + index) (read_tag word (base + index) base homes)
        (record { cells = cells.entry.now; heads = heads.old; links = links.old; progress = progress }) }
{
    if !base_codec::has_home(word, above) {
        return progress;
    }
    let back = base_codec::tag_back(word);
    if index < back {
        return progress;
    }
    join_entry(
        cells,
        heads,
        links,
        tag_home(word),
        (index - back) as usize,
        index as usize,
        progress,
    )
}

// The same for the word of a closing entry.
fn visit_closing(
    word: u64,
    above: u64,
    base: u64,
    index: u64,
    cells: &mut [u16],
    heads: &mut [u16],
    links: &mut [u16],
    progress: Progress,
) -> Progress
    requires { (index < 7168) × (base < 2 ^ 61) × (index < length cells.old) × (progress.failed ≡ 0)
        × ((eqb (field word 0 1) 1 && eqb (field word 58 6) 0 && eqb (field word 1 1) 1) ≡ true)
        × (progress.end ≤ base + index) × (progress.number ≤ base + index)
        × Roomy 0 (length cells.old) cells.old heads.old links.old }
    ensures { (homes : ℕ) → above ≡ entry_word homes 0
        → record { cells = cells.exit.now; heads = heads.new; links = links.new; progress = result }
        ≡ join base (base + index) (read_tag word (base + index) base homes)
        (record { cells = cells.entry.now; heads = heads.old; links = links.old; progress = progress }) }
{
    if !base_codec::has_home(word, above) {
        return progress;
    }
    let back = base_codec::tag_back(word);
    if index < back {
        return progress;
    }
    let count = base_codec::tag_count(word);
    if count == 0 {
        return progress;
    }
    let link = base_codec::tag_link(word);
    join_closing(
        cells,
        heads,
        links,
        base,
        base + index,
        tag_home(word),
        (index - back) as usize,
        link,
        count,
        progress,
    )
}

// Takes what the word of a tag says at index `index` of the log.
fn visit(
    word: u64,
    above: u64,
    base: u64,
    index: u64,
    cells: &mut [u16],
    heads: &mut [u16],
    links: &mut [u16],
    progress: Progress,
) -> Progress
    requires { (index < 7168) × (base < 2 ^ 61) × (index < length cells.old) × (progress.failed ≡ 0) × (progress.end ≤ base + index)
        × (progress.number ≤ base + index)
        × Roomy 0 (length cells.old) cells.old heads.old links.old }
    ensures { (homes : ℕ) → above ≡ entry_word homes 0
        → record { cells = cells.exit.now; heads = heads.new; links = links.new; progress = result }
        ≡ join base (base + index) (read_tag word (base + index) base homes)
        (record { cells = cells.entry.now; heads = heads.old; links = links.old; progress = progress }) }
{
    if base_codec::is_plain(word) {
        return visit_plain(word, above, base, index, cells, heads, links, progress);
    }
    if base_codec::is_closing(word) {
        return visit_closing(word, above, base, index, cells, heads, links, progress);
    }
    progress
}

// Takes the first `m` tags of a group, or those before the walk stops. The group says nothing where it is not the valid group with number `n` and turn `turn`.
fn visit_group(
    group: &[u8],
    groups: u64,
    homes: u64,
    start: u64,
    n: u64,
    turn: u64,
    m: usize,
    cells: &mut [u16],
    heads: &mut [u16],
    links: &mut [u16],
    progress: Progress,
) -> Progress
    requires { (length group.now ≡ 512) × (groups ≤ 1024) × (start ≤ 2 ^ 47) × (start ≤ n) × (n < start + groups)
        × (turn ≡ turn_of groups n) × (m ≤ 7)
        × (progress.failed ≡ 0) × (progress.end ≤ 7 * n) × (progress.number ≤ 7 * n) × (7 * groups ≤ length cells.old)
        × Roomy homes (length cells.old) cells.old heads.old links.old }
    ensures { record { cells = cells.exit.now; heads = heads.new; links = links.new; progress = result }
        ≡ over (join (7 * start)) (entry_within group.now groups homes start) (7 * n) m
        (record { cells = cells.entry.now; heads = heads.old; links = links.old; progress = progress }) }
{
    if !log_scan::group_valid(group, groups, start, n) {
        return progress;
    }
    let above = base_codec::entry_word(homes, 0);
    let base = 7 * start;
    let index = 7 * n - base;
    let mut reached = progress;
    let mut k: usize = 0;
    while k < m {
        reached = visit(
            log_scan::word_there(group, turn, k),
            above,
            base,
            index + k as u64,
            cells,
            heads,
            links,
            reached,
        );
        if reached.failed != 0 {
            return reached;
        }
        k += 1;
    }
    reached
}

// Takes the `n` positions of the log from its start on, group by group, until the walk stops.
fn pass(
    log: &[u8],
    cells: &mut [u16],
    heads: &mut [u16],
    links: &mut [u16],
    groups: u64,
    homes: u64,
    start: u64,
    n: u64,
) -> Progress
    requires { (length log.now ≡ 64 + 512 * groups) × (0 < groups) × (groups ≤ 1024) × (homes ≤ 65535) × (start ≤ 2 ^ 47) × (n ≤ 7 * groups)
        × Empty groups cells.old heads.old links.old }
    ensures { Passed log.now groups homes start n (length cells.entry.now)
        (record { cells = cells.exit.now; heads = heads.new; links = links.new; progress = result }) }
{
    let mut progress = Progress {
        end: 0,
        number: 0,
        failed: 0,
    };
    let mut at = log_scan::first_slot(start, groups);
    let mut number = start;
    let mut left = n;
    while left > 0 {
        let from = HEADER_SIZE + GROUP_SIZE * at.slot as usize;
        let group = &log[from..from + GROUP_SIZE];
        let m = log_scan::in_group(left);
        progress = visit_group(
            group, groups, homes, start, number, at.turn, m, cells, heads, links, progress,
        );
        if progress.failed != 0 {
            return progress;
        }
        at = log_scan::next_slot(at, groups);
        number += 1;
        left -= m as u64;
    }
    progress
}

// The closing entry that a cell holds, 0 for none.
fn closer_in(cell: u16) -> u16
    ensures { result ≡ closer_in cell }
{
    if cell < CLOSED { 0 } else { cell - CLOSED }
}

// Leaves in a cell only a closing entry, where the cells before it hold no counts.
fn drop_one(cells: &mut [u16], k: usize)
    requires { k < length cells.old }
    ensures { (before : List ℕ) (i : ℕ) → i ≡ k → Dropped before i cells.old → Dropped before (i + 1) cells.new }
{
    cells[k] = closer_in(cells[k]);
}

// The same for the eight cells from `k` on, in a row.
fn drop_eight(cells: &mut [u16], k: usize)
    requires { k + 8 ≤ length cells.old }
    ensures { (before : List ℕ) → Dropped before k cells.old → Dropped before (k + 8) cells.new }
{
    drop_one(cells, k);
    drop_one(cells, k + 1);
    drop_one(cells, k + 2);
    drop_one(cells, k + 3);
    drop_one(cells, k + 4);
    drop_one(cells, k + 5);
    drop_one(cells, k + 6);
    drop_one(cells, k + 7);
}

// The same for the cells from `from` to below `n`, where all others from there on are 0.
fn drop_rest(cells: &mut [u16], from: usize, n: usize)
    requires { (from ≤ n) × (n ≤ length cells.old) }
    ensures { (before : List ℕ) → Dropped before from cells.old → Dropped before n cells.new }
{
    let mut k = from;
    while k < n {
        drop_one(cells, k);
        k += 1;
    }
}

// Leaves in the first `n` cells, where all others are 0, only the closing entries, and no counts, eight at a time.
fn drop_counts(cells: &mut [u16], n: usize)
    requires { (n ≤ length cells.old) × ((i : ℕ) → n ≤ i → get_or cells.old i 0 ≡ 0) }
    ensures { (i : ℕ) → get_or cells.new i 0 ≡ closer_in (get_or cells.old i 0) }
{
    let mut k: usize = 0;
    let mut left = n;
    while left >= 8 {
        drop_eight(cells, k);
        k += 8;
        left -= 8;
    }
    drop_rest(cells, k, n)
}

// Walks the `n` positions of the log from its start on with empty tables, and finds where the committed transactions end and how many they are, their
// closing entries and the chains. A log in which an entry comes after its transaction's closing one, as no store writes it, stops the walk with the
// sign 2, and nothing is found: it takes two passes.
pub fn walk(
    log: &[u8],
    last: &mut [u16],
    heads: &mut [u16],
    links: &mut [u16],
    groups: u64,
    homes: u64,
    start: u64,
    n: u64,
) -> Progress
    requires { (length log.now ≡ 64 + 512 * groups) × (4 ≤ groups) × (groups ≤ 1024) × (homes ≤ 65535) × (start ≤ 2 ^ 47) × (n ≤ 7 * groups)
        × Empty groups last.old heads.old links.old }
    ensures { (result.failed ≡ 2 → ⊥)
        → (result.end ≡ end_of (committed (entry_at log.now groups homes start) (7 * start) n))
        × (result.number ≡ length (committed (entry_at log.now groups homes start) (7 * start) n))
        × Chained log.now groups homes start result.end last.new heads.new links.new }
{
    let progress = pass(log, last, heads, links, groups, homes, start, n);
    if progress.failed != 2 {
        drop_counts(last, n as usize);
    }
    progress
}
