// All touched homes brought back, for settle and open, if the batch has room for their records.
ghost use Rattle.std.specs.Prelude.{◌≡◌, ◌⊎◌, ◌+◌, ◌*◌, ◌≤◌, length};
ghost use Rattle.model.specs.Layout.{entry_at};
ghost use Rattle.model.specs.Effects.{touched};
ghost use Rattle.log_scan.specs.Walk.{Walkable, closed_below};
ghost use Rattle.log_gather.specs.Chains.{Chained};
ghost use Rattle.log_tables.specs.Plans.{Brought};

// The lesser of two numbers.
pub fn least(a: u64, b: u64) -> u64
    ensures { (result ≤ a) × (result ≤ b) × ((result ≡ a) ⊎ (result ≡ b)) }
{
    if a < b { a } else { b }
}

// Returns how many bytes the records of the homes that the transactions of all closing entries below `end` touch take, and `more`. If the
// batch has them, those transactions are replayed into the data copy, and the homes' records stand at the batch's beginning; else nothing
// is changed. The homes are counted first only where the batch may have no room: not for all homes, nor for as many as there can be
// entries.
pub fn bring_all(
    log: &[u8],
    area: &mut [u8],
    batch: &mut [u8],
    last: &[u16],
    heads: &[u16],
    links: &[u16],
    groups: u64,
    homes: u64,
    start: u64,
    end: u64,
    more: u64,
) -> u64
    requires { Walkable log.now groups start end × (homes ≤ 65535) × (length area.old ≡ 64 * homes) × (more ≤ 600000)
        × Chained log.now groups homes start end last.now heads.now links.now }
    ensures value { result
        ≡ 68 * length (touched (entry_at log.now groups homes start)
        (closed_below log.now groups homes start end) homes) + more }
    ensures brought { Brought log.now groups homes start end result area.old batch.old area.new
        batch.new }
{
    let room = batch.len() as u64;
    if room < 68 * least(homes, 7 * groups) + more {
        let size = 68 * log_replay::count(log, last, heads, links, groups, homes, start, end)
            + more;
        if room < size {
            return size;
        }
    }
    let size = log_replay::bring_back(
        log, area, batch, last, heads, links, groups, homes, start, end,
    );
    size as u64 + more
}
