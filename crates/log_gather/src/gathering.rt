// The pass over the log that finds the last closing entry of each transaction, by its first position, and chains the entries of each word of homes.
ghost use Rattle.std.specs.Prelude.{◌≡◌, ◌+◌, ◌-◌, ◌*◌, ◌^◌, ◌≤◌, ◌<◌, length, get_or, set};
ghost use Rattle.model.specs.Tag.{read_tag};
ghost use Rattle.model.specs.Layout.{turn_of, entry_within};
ghost use Rattle.log_scan.specs.Scan.{over};
ghost use Rattle.log_scan.specs.Walk.{Walkable};
ghost use Rattle.log_gather.specs.Chains.{note, Roomy, Empty, Chained};

use base_codec::{GROUP_SIZE, HEADER_SIZE};
use model::Tag;

// Puts the entry at an offset first into the chain of a word of homes.
pub fn chain(heads: &mut [u16], links: &mut [u16], word: usize, offset: usize)
    requires { (word < length heads.old) × (offset < length links.old) × (offset < 7168) }
    ensures heads_after { heads.new ≡ set heads.old word (offset + 1) }
    ensures links_after { links.new ≡ set links.old offset (get_or heads.old word 0) }
{
    links[offset] = heads[word];
    heads[word] = (offset + 1) as u16;
}

// Takes what the word of a tag says at a position.
fn visit(
    word: u64,
    position: u64,
    base: u64,
    homes: u64,
    last: &mut [u16],
    heads: &mut [u16],
    links: &mut [u16],
)
    requires { (base ≤ position) × (position < base + 7168) × (position < base + length last.old)
        × Roomy homes (length last.old) last.old heads.old links.old }
    ensures { record { last = last.exit.now; heads = heads.new; links = links.new }
        ≡ note base position (read_tag word position base homes)
        (record { last = last.entry.now; heads = heads.old; links = links.old }) }
{
    let offset = (position - base) as usize;
    match base_codec::read_tag(word, position, base, homes) {
        Tag::Nothing => {}
        Tag::Entry(home, _) => {
            chain(heads, links, (home / 64) as usize, offset);
        }
        Tag::Closing(home, first, _, _) => {
            last[(first - base) as usize] = (offset + 1) as u16;
            chain(heads, links, (home / 64) as usize, offset);
        }
    }
}

// Takes the first `m` tags of a group, which says nothing where it is not the valid group with number `n` and turn `turn`.
fn visit_group(
    group: &[u8],
    groups: u64,
    homes: u64,
    start: u64,
    n: u64,
    turn: u64,
    m: usize,
    last: &mut [u16],
    heads: &mut [u16],
    links: &mut [u16],
)
    requires { (length group.now ≡ 512) × (groups ≤ 1024) × (start ≤ 2 ^ 47) × (start ≤ n) × (n < start + groups)
        × (turn ≡ turn_of groups n) × (m ≤ 7)
        × (7 * groups ≤ length last.old) × Roomy homes (length last.old) last.old heads.old links.old }
    ensures { record { last = last.exit.now; heads = heads.new; links = links.new }
        ≡ over (note (7 * start)) (entry_within group.now groups homes start) (7 * n) m
        (record { last = last.entry.now; heads = heads.old; links = links.old }) }
{
    if !log_scan::group_valid(group, groups, start, n) {
        return;
    }
    let words = log_scan::tag_words(group, turn);
    let base = 7 * start;
    let mut position = 7 * n;
    let mut k: usize = 0;
    while k < m {
        visit(words[k], position, base, homes, last, heads, links);
        position += 1;
        k += 1;
    }
}

// Finds in empty tables the last closing entries and the chains of all entries below `end`.
pub fn gather(
    log: &[u8],
    last: &mut [u16],
    heads: &mut [u16],
    links: &mut [u16],
    groups: u64,
    homes: u64,
    start: u64,
    end: u64,
)
    requires { Walkable log.now groups start end × (homes ≤ 65535) × Empty groups last.old heads.old links.old }
    ensures { Chained log.now groups homes start end last.new heads.new links.new }
{
    let base = 7 * start;
    if end <= base {
        return;
    }
    let mut left = end - base;
    let mut number = start;
    let mut at = log_scan::first_slot(start, groups);
    while left > 0 {
        let from = HEADER_SIZE + GROUP_SIZE * at.slot as usize;
        let group = &log[from..from + GROUP_SIZE];
        let m = log_scan::in_group(left);
        visit_group(
            group, groups, homes, start, number, at.turn, m, last, heads, links,
        );
        at = log_scan::next_slot(at, groups);
        number += 1;
        left -= m as u64;
    }
}
