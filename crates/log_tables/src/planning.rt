// Replay for settle, open and a round's step, by tables of the size that the log asks for.
ghost use Rattle.std.specs.Prelude.{◌≡◌, ◌+◌, ◌*◌, ◌≤◌, length};
ghost use Rattle.model.specs.Layout.{entry_at};
ghost use Rattle.model.specs.Effects.{touched};
ghost use Rattle.log_scan.specs.Walk.{closed_below};
ghost use Rattle.log_tables.specs.Plans.{Searchable, Committed, Brought, StepMade};

use super::tables::{Replay, bring_large, bring_small};

// The most groups of a log that does with the small tables.
const SMALL: u64 = 64;

// Replay of all homes, for settle and open, by the committed transactions among the `n` positions from the start on.
pub fn bring_back(
    log: &[u8],
    area: &mut [u8],
    batch: &mut [u8],
    groups: u64,
    homes: u64,
    start: u64,
    n: u64,
    more: u64,
) -> Replay
    requires { Searchable log.now groups homes start n × (length area.old ≡ 64 * homes) × (more ≤ 600000) }
    ensures committed { Committed log.now groups homes start n result.end result.number }
    ensures size_value { result.size
        ≡ 68 * length (touched (entry_at log.now groups homes start)
        (closed_below log.now groups homes start result.end) homes) + more }
    ensures brought { Brought log.now groups homes start result.end result.size area.old batch.old
        area.new batch.new }
{
    if groups <= SMALL {
        return bring_small(log, area, batch, groups, homes, start, n, 0, 0, more);
    }
    bring_large(log, area, batch, groups, homes, start, n, 0, 0, more)
}

// A step of at most `limit` homes from the cursor on, by the same.
pub fn step(
    log: &[u8],
    area: &mut [u8],
    batch: &mut [u8],
    groups: u64,
    homes: u64,
    start: u64,
    n: u64,
    cursor: u64,
    limit: u64,
) -> Replay
    requires { Searchable log.now groups homes start n × (length area.old ≡ 64 * homes) × (1 ≤ limit) }
    ensures committed { Committed log.now groups homes start n result.end result.number }
    ensures step_made { StepMade log.now groups homes start result.end cursor limit result.size result.next result.more area.old
        batch.old
        area.new batch.new }
{
    if groups <= SMALL {
        return bring_small(log, area, batch, groups, homes, start, n, cursor, limit, 0);
    }
    bring_large(log, area, batch, groups, homes, start, n, cursor, limit, 0)
}
