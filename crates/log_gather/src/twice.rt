// A log that one pass does not do for: the commit rule in a first pass, closing entries and chains in a second.
ghost use Rattle.std.specs.Prelude.{◌≡◌, ◌+◌, ◌*◌, ◌^◌, ◌≤◌, length, replicate};
ghost use Rattle.model.specs.Layout.{entry_at};
ghost use Rattle.model.specs.Commit.{committed};
ghost use Rattle.model_laws.proofs.rule.Closings.{end_of};
ghost use Rattle.log_gather.specs.Chains.{Roomy, Chained};

use super::gathering::gather;
use log_scan::Progress;

// Makes a table empty.
fn clear(table: &mut [u16])
    ensures { table.new ≡ replicate (length table.new) 0 }
{
    let mut k: usize = 0;
    let mut left = table.len();
    while left > 0 {
        table[k] = 0;
        k += 1;
        left -= 1;
    }
}

// Walks the `n` positions of the log from its start on in two passes with tables that may hold anything; the first counts entries in `last`.
pub fn walk_twice(
    log: &[u8],
    last: &mut [u16],
    heads: &mut [u16],
    links: &mut [u16],
    groups: u64,
    homes: u64,
    start: u64,
    n: u64,
) -> Progress
    requires { (length log.now ≡ 64 + 512 * groups) × (4 ≤ groups) × (groups ≤ 1024) × (start ≤ 2 ^ 47) × (n ≤ 7 * groups)
        × (7 * groups ≤ length last.old) × Roomy homes (length last.old) last.old heads.old links.old }
    ensures { (result.end ≡ end_of (committed (entry_at log.now groups homes start) (7 * start) n))
        × (result.number ≡ length (committed (entry_at log.now groups homes start) (7 * start) n))
        × Chained log.now groups homes start result.end last.new heads.new links.new }
{
    clear(last);
    let found = log_scan::walk_with(log, last, groups, homes, start, n);
    clear(last);
    clear(heads);
    clear(links);
    gather(log, last, heads, links, groups, homes, start, found.end);
    Progress {
        end: found.end,
        number: found.number,
        failed: 0,
    }
}
