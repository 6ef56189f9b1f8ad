// Replay by tables that lie on the stack, in two sizes: a log of up to 64 groups takes a sixteenth of the positions.
ghost use Rattle.std.specs.Prelude.{◌≡◌, ◌+◌, ◌*◌, ◌≤◌, length};
ghost use Rattle.model.specs.Layout.{entry_at};
ghost use Rattle.model.specs.Effects.{touched};
ghost use Rattle.log_scan.specs.Walk.{closed_below};
ghost use Rattle.log_tables.specs.Plans.{Searchable, Committed, Brought, StepMade};

use super::steps::bring_some;
use super::whole::bring_all;

// Where the committed transactions end and how many they are, and what was made of them: the bytes of the records, the home after the last
// one done, and whether homes are left.
#[derive(Drop)]
pub struct Replay {
    pub end: u64,
    pub number: u64,
    pub size: u64,
    pub next: u64,
    pub more: bool,
}

// Finds what is committed among the `n` positions from the start on, and brings it back: all homes where `limit` is 0, else at most `limit` from the
// cursor on. For a log of up to 64 groups.
pub fn bring_small(
    log: &[u8],
    area: &mut [u8],
    batch: &mut [u8],
    groups: u64,
    homes: u64,
    start: u64,
    n: u64,
    cursor: u64,
    limit: u64,
    more: u64,
) -> Replay
    requires { Searchable log.now groups homes start n × (length area.old ≡ 64 * homes) × (more ≤ 600000) × (groups ≤ 64) }
    ensures committed { Committed log.now groups homes start n result.end result.number }
    ensures size_value { limit ≡ 0
        → (result.size ≡ 68 * length (touched (entry_at log.now groups homes start)
        (closed_below log.now groups homes start result.end) homes) + more)
        × Brought log.now groups homes start result.end result.size area.old batch.old area.new
        batch.new }
    ensures step_made { 1 ≤ limit
        → StepMade log.now groups homes start result.end cursor limit result.size result.next result.more area.old batch.old
        area.new batch.new }
{
    let mut last = [0u16; 448];
    let mut heads = [0u16; 1024];
    let mut links = [0u16; 448];
    let mut found = log_gather::walk(
        log, &mut last, &mut heads, &mut links, groups, homes, start, n,
    );
    if found.failed == 2 {
        found = log_gather::walk_twice(
            log, &mut last, &mut heads, &mut links, groups, homes, start, n,
        );
    }
    let end = found.end;
    if limit == 0 {
        let size = bring_all(
            log, area, batch, &last, &heads, &links, groups, homes, start, end, more,
        );
        return Replay {
            end,
            number: found.number,
            size,
            next: cursor,
            more: false,
        };
    }
    let made = bring_some(
        log, area, batch, &last, &heads, &links, groups, homes, start, end, cursor, limit,
    );
    Replay {
        end,
        number: found.number,
        size: made.size,
        next: made.next,
        more: made.more,
    }
}

// The same for any log. Both serve two calls each, and so stay functions of their own: a small log never takes the large tables.
pub fn bring_large(
    log: &[u8],
    area: &mut [u8],
    batch: &mut [u8],
    groups: u64,
    homes: u64,
    start: u64,
    n: u64,
    cursor: u64,
    limit: u64,
    more: u64,
) -> Replay
    requires { Searchable log.now groups homes start n × (length area.old ≡ 64 * homes) × (more ≤ 600000) }
    ensures committed { Committed log.now groups homes start n result.end result.number }
    ensures size_value { limit ≡ 0
        → (result.size ≡ 68 * length (touched (entry_at log.now groups homes start)
        (closed_below log.now groups homes start result.end) homes) + more)
        × Brought log.now groups homes start result.end result.size area.old batch.old area.new
        batch.new }
    ensures step_made { 1 ≤ limit
        → StepMade log.now groups homes start result.end cursor limit result.size result.next result.more area.old batch.old
        area.new batch.new }
{
    let mut last = [0u16; 7168];
    let mut heads = [0u16; 1024];
    let mut links = [0u16; 7168];
    let mut found = log_gather::walk(
        log, &mut last, &mut heads, &mut links, groups, homes, start, n,
    );
    if found.failed == 2 {
        found = log_gather::walk_twice(
            log, &mut last, &mut heads, &mut links, groups, homes, start, n,
        );
    }
    let end = found.end;
    if limit == 0 {
        let size = bring_all(
            log, area, batch, &last, &heads, &links, groups, homes, start, end, more,
        );
        return Replay {
            end,
            number: found.number,
            size,
            next: cursor,
            more: false,
        };
    }
    let made = bring_some(
        log, area, batch, &last, &heads, &links, groups, homes, start, end, cursor, limit,
    );
    Replay {
        end,
        number: found.number,
        size: made.size,
        next: made.next,
        more: made.more,
    }
}
