// Some of the touched homes brought back, for a round's step, if the batch has room for its records.
ghost use Rattle.std.specs.Prelude.{◌≡◌, cond, ◌+◌, ◌*◌, ◌≤◌, leb, length};
ghost use Rattle.log_scan.specs.Walk.{Walkable};
ghost use Rattle.log_gather.specs.Chains.{Chained};
ghost use Rattle.log_tables.specs.Plans.{StepMade};

use super::whole::least;

// A step of a round: the bytes that its records take, the home after the last one done, and whether homes are left.
#[derive(Drop)]
pub struct Made {
    pub size: u64,
    pub next: u64,
    pub more: bool,
}

// The bytes of the last step's fence, if the homes found are within the limit.
fn fence_size(found: u64, limit: u64) -> u64
    ensures { result ≡ cond (leb found limit) 2 0 }
{
    if limit < found { 0 } else { 2 }
}

// Finds the bytes that a step of at most `limit` homes from the cursor on takes. If the batch has them, those homes are brought back into the data
// copy, and their records stand at the batch's beginning. The homes are counted first only where the batch may have no room for the most that can come.
pub fn bring_some(
    log: &[u8],
    area: &mut [u8],
    batch: &mut [u8],
    last: &[u16],
    heads: &[u16],
    links: &[u16],
    groups: u64,
    homes: u64,
    start: u64,
    end: u64,
    cursor: u64,
    limit: u64,
) -> Made
    requires { Walkable log.now groups start end × (homes ≤ 65535) × (length area.old ≡ 64 * homes)
        × Chained log.now groups homes start end last.now heads.now links.now }
    ensures { StepMade log.now groups homes start end cursor limit result.size result.next result.more area.old
        batch.old
        area.new batch.new }
{
    let room = batch.len() as u64;
    let most = least(limit, homes);
    if 68 * most + 2 <= room {
        let got = log_replay::bring_from(
            log, area, batch, last, heads, links, groups, homes, start, end, cursor, most,
        );
        let seen = got.done + got.rest;
        return Made {
            size: 68 * got.done + fence_size(seen, limit),
            next: got.home,
            more: limit < seen,
        };
    }
    let found = log_replay::count_from(
        log, last, heads, links, groups, homes, start, end, cursor, limit,
    );
    let done = least(found, limit);
    let size = 68 * done + fence_size(found, limit);
    let more = limit < found;
    if room < size {
        return Made {
            size,
            next: cursor,
            more,
        };
    }
    let got = log_replay::bring_from(
        log, area, batch, last, heads, links, groups, homes, start, end, cursor, done,
    );
    Made {
        size,
        next: got.home,
        more,
    }
}
