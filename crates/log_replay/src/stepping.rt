// A round's step: the touched homes from a cursor on, home by home. Those of a word that come before the cursor, or after the last one that the step
// brings back, stay as they are.
ghost use Rattle.std.specs.Prelude.{◌≡◌, true, cond, List, ℕ, ◌+◌, ◌-◌, ◌*◌, ◌/◌, ◌%◌, ◌^◌, ◌≤◌, ◌<◌, eqb, length};
ghost use Rattle.model.specs.Bytes.{puts};
ghost use Rattle.model.specs.Layout.{block_at, home_at, put_home};
ghost use Rattle.model.specs.Batch.{HW, record_bytes, batch_bytes};
ghost use Rattle.model.specs.Effects.{marked, home_writes};
ghost use Rattle.log_scan.specs.Walk.{Walkable};
ghost use Rattle.log_gather.specs.Chains.{Chained};
ghost use Rattle.log_replay.specs.Words.{Newest, touches};
ghost use Rattle.log_replay.specs.Restore.{restored, newest_at};
ghost use Rattle.log_replay.specs.Steps.{span, Part, Stepped, Left};

use super::places::restore_block;
use super::restore::bring_chain;
use super::words::newest_in;

// How far a step has come: the home after the last one that it looked at, how many it has brought back, and how many touched homes it has seen
// from there on.
#[derive(Drop)]
pub struct Reached {
    pub home: u64,
    pub done: u64,
    pub rest: u64,
}

// 1 if a code of the table says that its home has a newest entry, 0 if not.
fn one_if(code: u16) -> u64
    ensures { result ≡ cond (eqb code 0) 0 1 }
{
    if code == 0 { 0 } else { 1 }
}

// How many of the homes from `from` to below `upto`, all of word `w`, are touched, by the table of the word's newest entries.
fn codes_left(table: &[u16], w: usize, from: u64, upto: u64) -> u64
    requires { (length table.now ≡ 64) × (w < 1024) × (64 * w ≤ from) × (from ≤ upto) × (upto ≤ 64 * w + 64) }
    ensures { (log : List ℕ) (groups homes start end bits : ℕ) → Walkable log groups start end
        → Newest log groups homes start end w table.now bits
        → result ≡ length (span (touches log groups homes start end) from (upto - from)) }
{
    let base = 64 * w as u64;
    let mut n = 0;
    let mut h = from;
    while h < upto {
        n += one_if(table[(h - base) as usize]);
        h += 1;
    }
    n
}

// How many of the homes from `from` to below `upto`, all of word `w`, are touched.
fn count_part(
    log: &[u8],
    last: &[u16],
    heads: &[u16],
    links: &[u16],
    w: usize,
    from: u64,
    upto: u64,
    groups: u64,
    homes: u64,
    start: u64,
    end: u64,
    slot: u64,
) -> u64
    requires { Part log.now last.now heads.now links.now w from upto groups homes start end slot }
    ensures { result ≡ length (span (touches log.now groups homes start end) from (upto - from)) }
{
    if heads[w] == 0 {
        return 0;
    }
    let mut table = [0u16; 64];
    newest_in(
        log, last, heads, links, &mut table, w, groups, homes, start, end, slot,
    );
    codes_left(&table, w, from, upto)
}

// The end of the homes of the word that a home is in, or of all homes.
fn word_end(home: u64, homes: u64) -> u64
    requires { (home < homes) × (homes ≤ 65535) }
    ensures { (home < result) × (result ≤ homes) × (result ≤ 64 * (home / 64) + 64) }
{
    let end = 64 * (home / 64) + 64;
    if end < homes { end } else { homes }
}

// How many homes from the cursor on the transactions of all closing entries below `end` touch, if they are at most `limit`; else more than that.
pub fn count_from(
    log: &[u8],
    last: &[u16],
    heads: &[u16],
    links: &[u16],
    groups: u64,
    homes: u64,
    start: u64,
    end: u64,
    cursor: u64,
    limit: u64,
) -> u64
    requires { Walkable log.now groups start end × (homes ≤ 65535)
        × Chained log.now groups homes start end last.now heads.now links.now }
    ensures { (result ≤ limit → result ≡ length (span (touches log.now groups homes start end) cursor (homes - cursor)))
        × (result ≤ length (span (touches log.now groups homes start end) cursor (homes - cursor))) }
{
    let slot = log_scan::first_slot(start, groups).slot;
    let mut n = 0;
    let mut h = cursor;
    while h < homes {
        if limit < n {
            return n;
        }
        let upto = word_end(h, homes);
        n += count_part(
            log,
            last,
            heads,
            links,
            (h / 64) as usize,
            h,
            upto,
            groups,
            homes,
            start,
            end,
            slot,
        );
        h = upto;
    }
    n
}

// Brings a home back whose newest entry is said by a code of the table, and writes its record as the one after `done` others; returns how
// many it then are. A code of 0 leaves all as it is.
fn bring_home(
    log: &[u8],
    area: &mut [u8],
    batch: &mut [u8],
    code: u16,
    groups: u64,
    start: u64,
    slot: u64,
    home: usize,
    done: u64,
) -> u64
    requires { (length log.now ≡ 64 + 512 * groups) × (groups ≤ 1024) × (0 < groups) × (start ≤ 2 ^ 47) × (slot ≡ start % groups)
        × (code ≤ 7 * groups)
        × (64 * home + 64 ≤ length area.old) × (68 * done + 68 ≤ length batch.old) × (home < 65536) }
    ensures value { result ≡ done + cond (eqb code 0) 0 1 }
    ensures area_after { area.new
        ≡ cond (eqb code 0) area.old (put_home area.old home (block_at log.now groups (7 * start + (code - 1)))) }
    ensures batch_after { batch.new
        ≡ cond (eqb code 0) batch.old (puts batch.old (68 * done) (record_bytes (HW home (home_at area.new home)))) }
{
    if code == 0 {
        return done;
    }
    restore_block(log, area, groups, start, slot, code as u64 - 1, home);
    base_batch::home_write(batch, 68 * done as usize, home, area);
    done + 1
}

// Brings the touched homes from `from` to below `upto` back, all of word `w`, until `limit` are done in all, and counts those that are left of them.
// A whole word that cannot reach the limit is brought back as settle does it.
fn bring_part_of(
    log: &[u8],
    area: &mut [u8],
    batch: &mut [u8],
    last: &[u16],
    heads: &[u16],
    links: &[u16],
    w: usize,
    from: u64,
    upto: u64,
    groups: u64,
    homes: u64,
    start: u64,
    end: u64,
    slot: u64,
    done: u64,
    limit: u64,
) -> Reached
    requires { Part log.now last.now heads.now links.now w from upto groups homes start end slot × (upto ≤ homes) × (homes ≤ 65535)
        × (length area.old ≡ 64 * homes) × (done < limit) × (limit ≤ 65535) × (68 * limit ≤ length batch.old) }
    ensures stepped { Stepped log.now groups homes start end from upto done limit area.old batch.old
        result.home result.done
        area.new batch.new }
    ensures rest_value { result.rest ≡ length (span (touches log.now groups homes start end) result.home (upto - result.home)) }
{
    if upto - from == 64 {
        if limit - done > 64 {
            let at = bring_chain(
                log,
                area,
                batch,
                68 * done as usize,
                last,
                heads,
                links,
                w,
                groups,
                homes,
                start,
                end,
                slot,
            );
            return Reached {
                home: upto,
                done: at as u64 / 68,
                rest: 0,
            };
        }
    }
    let mut table = [0u16; 64];
    let bits = newest_in(
        log, last, heads, links, &mut table, w, groups, homes, start, end, slot,
    );
    if bits == 0 {
        return Reached {
            home: upto,
            done,
            rest: 0,
        };
    }
    let base = 64 * w as u64;
    let mut n = done;
    let mut h = from;
    while h < upto {
        if n == limit {
            return Reached {
                home: h,
                done: n,
                rest: codes_left(&table, w, h, upto),
            };
        }
        let code = table[(h - base) as usize];
        n = bring_home(log, area, batch, code, groups, start, slot, h as usize, n);
        h += 1;
    }
    Reached {
        home: h,
        done: n,
        rest: 0,
    }
}

// The same, at once where the word has no entry.
fn bring_part(
    log: &[u8],
    area: &mut [u8],
    batch: &mut [u8],
    last: &[u16],
    heads: &[u16],
    links: &[u16],
    w: usize,
    from: u64,
    upto: u64,
    groups: u64,
    homes: u64,
    start: u64,
    end: u64,
    slot: u64,
    done: u64,
    limit: u64,
) -> Reached
    requires { Part log.now last.now heads.now links.now w from upto groups homes start end slot × (upto ≤ homes) × (homes ≤ 65535)
        × (length area.old ≡ 64 * homes) × (done < limit) × (limit ≤ 65535) × (68 * limit ≤ length batch.old) }
    ensures stepped { Stepped log.now groups homes start end from upto done limit area.old batch.old
        result.home result.done
        area.new batch.new }
    ensures rest_value { result.rest ≡ length (span (touches log.now groups homes start end) result.home (upto - result.home)) }
{
    if heads[w] == 0 {
        return Reached {
            home: upto,
            done,
            rest: 0,
        };
    }
    bring_part_of(
        log, area, batch, last, heads, links, w, from, upto, groups, homes, start, end, slot, done,
        limit,
    )
}

// Brings the first `limit` touched homes from the cursor on back into the data copy, or all of them, and writes their records at the batch's
// beginning; says where it has come, and whether touched homes are left. Each word's chain is gone along once.
pub fn bring_from(
    log: &[u8],
    area: &mut [u8],
    batch: &mut [u8],
    last: &[u16],
    heads: &[u16],
    links: &[u16],
    groups: u64,
    homes: u64,
    start: u64,
    end: u64,
    cursor: u64,
    limit: u64,
) -> Reached
    requires { Walkable log.now groups start end × (homes ≤ 65535) × Chained log.now groups homes start end last.now heads.now links.now
        × (length area.old ≡ 64 * homes) × (68 * limit ≤ length batch.old) × (limit ≤ 65535) }
    ensures stepped { Stepped log.now groups homes start end cursor result.home 0 limit area.old batch.old
        result.home result.done
        area.new batch.new }
    ensures left { Left (touches log.now groups homes start end) homes cursor limit result.done result.rest }
{
    if limit == 0 {
        return Reached {
            home: cursor,
            done: 0,
            rest: count_from(
                log, last, heads, links, groups, homes, start, end, cursor, 0,
            ),
        };
    }
    let slot = log_scan::first_slot(start, groups).slot;
    let mut n = 0;
    let mut h = cursor;
    while h < homes {
        let upto = word_end(h, homes);
        let reached = bring_part(
            log,
            area,
            batch,
            last,
            heads,
            links,
            (h / 64) as usize,
            h,
            upto,
            groups,
            homes,
            start,
            end,
            slot,
            n,
            limit,
        );
        if reached.done == limit {
            if reached.rest != 0 {
                return reached;
            }
            return Reached {
                home: reached.home,
                done: limit,
                rest: count_from(log, last, heads, links, groups, homes, start, end, upto, 0),
            };
        }
        n = reached.done;
        h = upto;
    }
    Reached {
        home: h,
        done: n,
        rest: 0,
    }
}
