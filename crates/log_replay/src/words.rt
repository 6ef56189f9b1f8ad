// The newest committed entries of one word of homes, by its chain, and how many homes have one.
ghost use Rattle.std.specs.Prelude.{◌≡◌, true, ◌+◌, ◌*◌, ◌/◌, ◌%◌, ◌^◌, ◌≤◌, ◌<◌, length, replicate};
ghost use Rattle.model.specs.Tag.{present};
ghost use Rattle.model.specs.Layout.{entry_at};
ghost use Rattle.model.specs.Effects.{touched};
ghost use Rattle.log_scan.specs.Walk.{Walkable, closed_below};
ghost use Rattle.log_gather.specs.Chains.{Chained};
ghost use Rattle.log_replay.specs.Words.{offered, taken_in, take, Sized, Newest, touches, word_homes};

use super::places::word_from;

// Takes an entry as the newest of its home, the one with index `k` in its word, if its transaction closes later than that of the newest so far.
fn offer(closers: &mut [u16], table: &mut [u16], map: &mut [u64], k: usize, closer: u16, code: u16)
    requires { (k < 64) × Sized closers.old table.old map.old }
    ensures { record { closers = closers.exit.now; table = table.new; map = map.new }
        ≡ offered k closer code (record { closers = closers.entry.now; table = table.old; map = map.old }) }
{
    if closers[k] < closer {
        closers[k] = closer;
        table[k] = code;
        base_bitmap::mark(map, k);
    }
}

// Takes the entry at an offset if its transaction, with its first entry at the offset `first`, is closed from there on.
fn take_entry(
    last: &[u16],
    closers: &mut [u16],
    table: &mut [u16],
    map: &mut [u64],
    home: u64,
    first: u64,
    offset: u64,
)
    requires { (first < length last.now) × (offset < 7168) × Sized closers.old table.old map.old }
    ensures { record { closers = closers.exit.now; table = table.new; map = map.new }
        ≡ taken_in last.now home first offset
        (record { closers = closers.entry.now; table = table.old; map = map.old }) }
{
    let closer = last[first as usize];
    if closer as u64 > offset {
        offer(
            closers,
            table,
            map,
            (home % 64) as usize,
            closer,
            (offset + 1) as u16,
        );
    }
}

// The index of a tag's home among the 64 of its word of homes.
fn place_in_word(word: u64) -> u64
    ensures { result ≡ word / 2 ^ 2 % 2 ^ 6 }
{
    (word >> 2) & 0x3f
}

// Takes what the log says at an offset where there is an entry.
fn take_at(
    log: &[u8],
    last: &[u16],
    closers: &mut [u16],
    table: &mut [u16],
    map: &mut [u64],
    groups: u64,
    homes: u64,
    start: u64,
    slot: u64,
    offset: u64,
)
    requires { (length log.now ≡ 64 + 512 * groups) × (groups ≤ 1024) × (0 < groups) × (start ≤ 2 ^ 47) × (offset < 7 * groups)
        × (slot ≡ start % groups)
        × (present (entry_at log.now groups homes start (7 * start + offset)) ≡ true) × (7 * groups ≤ length last.now)
        × Sized closers.old table.old map.old }
    ensures { record { closers = closers.exit.now; table = table.new; map = map.new }
        ≡ take last.now (7 * start) offset (entry_at log.now groups homes start (7 * start + offset))
        (record { closers = closers.entry.now; table = table.old; map = map.old }) }
{
    let word = word_from(log, groups, start, slot, offset);
    let back = base_codec::tag_back(word);
    take_entry(
        last,
        closers,
        table,
        map,
        place_in_word(word),
        offset - back,
        offset,
    )
}

// Finds the newest committed entries of the homes of word `w` in an empty table, and returns the word that marks the homes that have one.
pub fn newest_in(
    log: &[u8],
    last: &[u16],
    heads: &[u16],
    links: &[u16],
    table: &mut [u16],
    w: usize,
    groups: u64,
    homes: u64,
    start: u64,
    end: u64,
    slot: u64,
) -> u64
    requires { Walkable log.now groups start end × Chained log.now groups homes start end last.now heads.now links.now × (w < 1024)
        × (slot ≡ start % groups) × (table.old ≡ replicate 64 0) }
    ensures { Newest log.now groups homes start end w table.new result }
{
    let mut closers = [0u16; 64];
    let mut map = [0u64; 1];
    let mut code = heads[w];
    while code != 0 {
        let offset = code as u64 - 1;
        take_at(
            log,
            last,
            &mut closers,
            table,
            &mut map,
            groups,
            homes,
            start,
            slot,
            offset,
        );
        code = links[offset as usize];
    }
    map[0]
}

// How many homes of word `w` the transactions of all closing entries below `end` touch.
fn count_word(
    log: &[u8],
    last: &[u16],
    heads: &[u16],
    links: &[u16],
    w: usize,
    groups: u64,
    homes: u64,
    start: u64,
    end: u64,
    slot: u64,
) -> u64
    requires { Walkable log.now groups start end × Chained log.now groups homes start end last.now heads.now links.now × (w < 1024)
        × (slot ≡ start % groups) }
    ensures { result ≡ length (word_homes (touches log.now groups homes start end) w) }
{
    if heads[w] == 0 {
        return 0;
    }
    let mut table = [0u16; 64];
    let bits = newest_in(
        log, last, heads, links, &mut table, w, groups, homes, start, end, slot,
    );
    base_bitmap::ones(bits)
}

// How many homes the transactions of all closing entries below `end` touch.
pub fn count(
    log: &[u8],
    last: &[u16],
    heads: &[u16],
    links: &[u16],
    groups: u64,
    homes: u64,
    start: u64,
    end: u64,
) -> u64
    requires { Walkable log.now groups start end × (homes ≤ 65535)
        × Chained log.now groups homes start end last.now heads.now links.now }
    ensures { result
        ≡ length (touched (entry_at log.now groups homes start) (closed_below log.now groups homes start end) homes) }
{
    let slot = log_scan::first_slot(start, groups).slot;
    let words = ((homes + 63) / 64) as usize;
    let mut n = 0;
    let mut w: usize = 0;
    while w < words {
        n += count_word(log, last, heads, links, w, groups, homes, start, end, slot);
        w += 1;
    }
    n
}
