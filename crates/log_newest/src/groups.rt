// Commit's pass over a group's tags: all seven where they are plain, or from one tag on to another.
ghost use Rattle.std.specs.Prelude.{◌≡◌, true, false, List, ℕ, ◌+◌, ◌-◌, ◌*◌, ◌^◌, ◌≤◌, ◌<◌, length};
ghost use Rattle.model.specs.Tag.{entry_word};
ghost use Rattle.model.specs.Layout.{turn_of, entry_within};
ghost use Rattle.log_newest.specs.Keeping.{kept_over, ValidFor};

use crate::near::near_homes;
use crate::words::{keep_entry, keep_near, keep_word};

// Keeps the transaction's entry at tag `k` of a valid group, if it is plain, where those before are taken; returns whether it has taken the tag. `plain`
// is the plain word of the group's first tag.
fn keep_next(
    group: &[u8],
    homes: u64,
    n: u64,
    turn: u64,
    first: u64,
    k: usize,
    plain: u64,
    near: u64,
    newest: &mut [u8],
) -> bool
    requires { (length group.now ≡ 512) × (length newest.old ≡ 8 * homes) × (homes ≤ 65535) × (n < 2 ^ 60) × (first ≤ 7 * n)
        × (7 * n + 7 ≤ first + 7168) × (turn < 2) × (k < 7) × (plain ≡ entry_word 0 (7 * n - first)) × (near ≤ homes) × (near ≤ 4096) }
    ensures newest_unchanged { result ≡ false → newest.new ≡ newest.old }
    ensures newest_after { result ≡ true → (groups start : ℕ) (before : List ℕ) → ValidFor group.now groups start n turn first
        → newest.old ≡ kept_over (entry_within group.now groups homes start) first (7 * n) k before
        → newest.new ≡ kept_over (entry_within group.now groups homes start) first (7 * n) (k + 1) before }
{
    let position = 7 * n + k as u64;
    keep_near(
        group,
        turn,
        k,
        plain + 0x4000 * k as u64,
        position,
        near,
        homes,
        newest,
    )
}

// Keeps the transaction's entries of a valid group one after the other, as long as they are plain; returns how many tags it has taken.
fn keep_seven(group: &[u8], homes: u64, n: u64, turn: u64, first: u64, newest: &mut [u8]) -> usize
    requires { (length group.now ≡ 512) × (length newest.old ≡ 8 * homes) × (homes ≤ 65535) × (n < 2 ^ 60) × (first ≤ 7 * n)
        × (7 * n + 7 ≤ first + 7168) × (turn < 2) }
    ensures { (result ≤ 7)
        × ((groups start : ℕ) → ValidFor group.now groups start n turn first → newest.new
        ≡ kept_over (entry_within group.now groups homes start) first (7 * n) result newest.old) }
{
    let plain = base_codec::entry_word(0, 7 * n - first);
    let near = near_homes(homes);
    if !keep_next(group, homes, n, turn, first, 0, plain, near, newest) {
        return 0;
    }
    if !keep_next(group, homes, n, turn, first, 1, plain, near, newest) {
        return 1;
    }
    if !keep_next(group, homes, n, turn, first, 2, plain, near, newest) {
        return 2;
    }
    if !keep_next(group, homes, n, turn, first, 3, plain, near, newest) {
        return 3;
    }
    if !keep_next(group, homes, n, turn, first, 4, plain, near, newest) {
        return 4;
    }
    if !keep_next(group, homes, n, turn, first, 5, plain, near, newest) {
        return 5;
    }
    if !keep_next(group, homes, n, turn, first, 6, plain, near, newest) {
        return 6;
    }
    7
}

// The same for a group of the log's range, none where it is not the valid group with number `n`: its head is asked once.
pub fn keep_whole(
    group: &[u8],
    groups: u64,
    homes: u64,
    start: u64,
    n: u64,
    turn: u64,
    first: u64,
    newest: &mut [u8],
) -> usize
    requires { (length group.now ≡ 512) × (groups ≤ 1024) × (homes ≤ 65535) × (start ≤ 2 ^ 47) × (n < start + groups)
        × (turn ≡ turn_of groups n) × (turn < 2) × (7 * start ≤ first) × (first ≤ 7 * n) × (length newest.old ≡ 8 * homes) }
    ensures { (result ≤ 7)
        × (newest.new ≡ kept_over (entry_within group.now groups homes start) first (7 * n) result newest.old) }
{
    if !base_codec::has_group_head(group, 0, n) {
        return 0;
    }
    keep_seven(group, homes, n, turn, first, newest)
}

// Keeps the transaction's entries from tag `done` of a group to below tag `m`, where those before are taken. The group says nothing where
// it is not the valid group with number `n` and turn `turn`.
pub fn keep_between(
    group: &[u8],
    groups: u64,
    homes: u64,
    start: u64,
    n: u64,
    turn: u64,
    done: usize,
    m: usize,
    first: u64,
    newest: &mut [u8],
)
    requires { (length group.now ≡ 512) × (groups ≤ 1024) × (homes ≤ 65535) × (start ≤ 2 ^ 47) × (n < start + 1024)
        × (turn ≡ turn_of groups n) × (done ≤ m) × (m ≤ 7) × (7 * start ≤ first) × (first ≤ 7 * n + done) × (length newest.old ≡ 8 * homes)
        × (turn < 2) }
    ensures { (before : List ℕ) → newest.old
        ≡ kept_over (entry_within group.now groups homes start) first (7 * n) done before → newest.new
        ≡ kept_over (entry_within group.now groups homes start) first (7 * n) m before }
{
    if !log_scan::group_valid(group, groups, start, n) {
        return;
    }
    let base = 7 * start;
    let mut k = done;
    while k < m {
        keep_entry(group, turn, k, 7 * n + k as u64, base, homes, first, newest);
        k += 1;
    }
}

// The same for tag `k` alone, the only one of its transaction.
pub fn keep_alone(
    group: &[u8],
    groups: u64,
    homes: u64,
    start: u64,
    n: u64,
    turn: u64,
    k: usize,
    newest: &mut [u8],
)
    requires { (length group.now ≡ 512) × (groups ≤ 1024) × (homes ≤ 65535) × (start ≤ 2 ^ 47) × (n < start + 1024)
        × (turn ≡ turn_of groups n) × (k < 7) × (length newest.old ≡ 8 * homes) }
    ensures { (before : List ℕ) → newest.old
        ≡ kept_over (entry_within group.now groups homes start) (7 * n + k) (7 * n) k before → newest.new
        ≡ kept_over (entry_within group.now groups homes start) (7 * n + k) (7 * n) (k + 1) before }
{
    if !log_scan::group_valid(group, groups, start, n) {
        return;
    }
    let word = log_scan::word_there(group, turn, k);
    let position = 7 * n + k as u64;
    keep_word(newest, word, position, 7 * start, homes, position)
}
