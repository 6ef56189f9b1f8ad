// The touched homes brought back, word by word: each one's newest block into the data copy, and its record into the batch.
ghost use Rattle.std.specs.Prelude.{◌≡◌, ◌+◌, ◌-◌, ◌*◌, ◌%◌, ◌^◌, ◌≤◌, ◌<◌, length, get_or};
ghost use Rattle.model.specs.Bytes.{puts};
ghost use Rattle.model.specs.Layout.{entry_at};
ghost use Rattle.model.specs.Batch.{batch_bytes};
ghost use Rattle.model.specs.Effects.{touched, replayed, home_writes};
ghost use Rattle.base_bitmap.specs.Marks.{bits_of, raised};
ghost use Rattle.log_scan.specs.Walk.{Walkable, closed_below};
ghost use Rattle.log_gather.specs.Chains.{Chained};
ghost use Rattle.log_replay.specs.Words.{touches, word_homes};
ghost use Rattle.log_replay.specs.Restore.{restored, newest_at, Ready, Replayable};

use super::places::restore_block;
use super::words::newest_in;

// Copies to each home that one word marks, whose first home is `base`, the block of its newest entry.
fn restore_word(
    log: &[u8],
    area: &mut [u8],
    table: &[u16],
    groups: u64,
    start: u64,
    slot: u64,
    word: u64,
    base: usize,
)
    requires { (length log.now ≡ 64 + 512 * groups) × (groups ≤ 1024) × (0 < groups) × (start ≤ 2 ^ 47) × (slot ≡ start % groups)
        × (base + 64 ≤ 65536)
        × Ready area.old groups table.now base (bits_of word) }
    ensures { area.new
        ≡ restored log.now groups (λ h. 7 * start + get_or table.now (h - base) 0 - 1) (raised base (bits_of word))
        area.old }
{
    let mut w = word;
    while w != 0 {
        let k = base_bitmap::lowest(w);
        restore_block(
            log,
            area,
            groups,
            start,
            slot,
            table[k] as u64 - 1,
            base + k,
        );
        w = base_bitmap::clear_lowest(w);
    }
}

// Brings the touched homes of word `w` back into the data copy, and writes their records at an index of the batch; returns the index past them.
pub fn bring_chain(
    log: &[u8],
    area: &mut [u8],
    batch: &mut [u8],
    at: usize,
    last: &[u16],
    heads: &[u16],
    links: &[u16],
    w: usize,
    groups: u64,
    homes: u64,
    start: u64,
    end: u64,
    slot: u64,
) -> usize
    requires { Walkable log.now groups start end × (homes ≤ 65535) × Chained log.now groups homes start end last.now heads.now links.now
        × (w < 1024) × (slot ≡ start % groups) × (length area.old ≡ 64 * homes)
        × (at + 68 * length (word_homes (touches log.now groups homes start end) w) ≤ length batch.old) }
    ensures value { result ≡ at + 68 * length (word_homes (touches log.now groups homes start end) w) }
    ensures area_after { area.new
        ≡ restored log.now groups (newest_at log.now groups homes start end)
        (word_homes (touches log.now groups homes start end) w) area.old }
    ensures batch_after { batch.new
        ≡ puts batch.old at
        (batch_bytes (home_writes area.new (word_homes (touches log.now groups homes start end) w))) }
{
    let mut table = [0u16; 64];
    let bits = newest_in(
        log, last, heads, links, &mut table, w, groups, homes, start, end, slot,
    );
    restore_word(log, area, &table, groups, start, slot, bits, 64 * w);
    base_batch::emit_word(batch, at, bits, 64 * w, area)
}

// The same, at once where the word has no entry.
fn bring_word(
    log: &[u8],
    area: &mut [u8],
    batch: &mut [u8],
    at: usize,
    last: &[u16],
    heads: &[u16],
    links: &[u16],
    w: usize,
    groups: u64,
    homes: u64,
    start: u64,
    end: u64,
    slot: u64,
) -> usize
    requires { Walkable log.now groups start end × (homes ≤ 65535) × Chained log.now groups homes start end last.now heads.now links.now
        × (w < 1024) × (slot ≡ start % groups) × (length area.old ≡ 64 * homes)
        × (at + 68 * length (word_homes (touches log.now groups homes start end) w) ≤ length batch.old) }
    ensures value { result ≡ at + 68 * length (word_homes (touches log.now groups homes start end) w) }
    ensures area_after { area.new
        ≡ restored log.now groups (newest_at log.now groups homes start end)
        (word_homes (touches log.now groups homes start end) w) area.old }
    ensures batch_after { batch.new
        ≡ puts batch.old at
        (batch_bytes (home_writes area.new (word_homes (touches log.now groups homes start end) w))) }
{
    if heads[w] == 0 {
        return at;
    }
    bring_chain(
        log, area, batch, at, last, heads, links, w, groups, homes, start, end, slot,
    )
}

// Replays the transactions that close below `end` into the data copy, and writes the records of the homes that they touch at the batch's beginning.
pub fn bring_back(
    log: &[u8],
    area: &mut [u8],
    batch: &mut [u8],
    last: &[u16],
    heads: &[u16],
    links: &[u16],
    groups: u64,
    homes: u64,
    start: u64,
    end: u64,
) -> usize
    requires { Replayable log.now area.old last.now heads.now links.now batch.old groups homes start end 0 }
    ensures value { result ≡ 68 * length (touched (entry_at log.now groups homes start)
        (closed_below log.now groups homes start end) homes) }
    ensures area_after { area.new
        ≡ replayed log.now groups (entry_at log.now groups homes start)
        (closed_below log.now groups homes start end) area.old }
    ensures batch_after { batch.new
        ≡ puts batch.old 0
        (batch_bytes (home_writes area.new
        (touched (entry_at log.now groups homes start) (closed_below log.now groups homes start end) homes))) }
{
    let slot = log_scan::first_slot(start, groups).slot;
    let words = ((homes + 63) / 64) as usize;
    let mut at = 0;
    let mut w: usize = 0;
    while w < words {
        at = bring_word(
            log, area, batch, at, last, heads, links, w, groups, homes, start, end, slot,
        );
        w += 1;
    }
    at
}
