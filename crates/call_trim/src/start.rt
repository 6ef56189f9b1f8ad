// The start that trim moves to.
ghost use Rattle.std.specs.Prelude.{◌≡◌, [], ◌+◌, ◌*◌, ◌^◌, ◌≤◌, length};
ghost use Rattle.model.specs.Layout.{entry_at};
ghost use Rattle.model.specs.Commit.{committed};
ghost use Rattle.model.specs.State.{state_of};
ghost use Rattle.model.specs.Effects.{trim_start};
ghost use Rattle.model_laws.proofs.rule.Closings.{end_of};
ghost use Rattle.call_ask.specs.Lent.{lent};
ghost use Rattle.call_ask.proofs.AnswerLaws.{Usable};

use model::State;

// Where the committed transactions end among the `n` positions of the log from its start on, or 0 for none.
fn committed_end(log: &[u8], groups: u64, homes: u64, start: u64, n: u64) -> u64
    requires { (length log.now ≡ 64 + 512 * groups) × (4 ≤ groups) × (groups ≤ 1024) × (homes ≤ 65535) × (start ≤ 2 ^ 47) × (n ≤ 7 * groups) }
    ensures { result ≡ end_of (committed (entry_at log.now groups homes start) (7 * start) n) }
{
    if groups <= 64 {
        let found = log_scan::walk_small(log, groups, homes, start, n);
        return found.end;
    }
    let found = log_scan::walk_large(log, groups, homes, start, n);
    found.end
}

// The highest start up to the settled position that no open or committed transaction lies across. The log is not looked at where open transactions
// leave no start but its own, or where the highest that they leave lies past all entries.
pub fn new_start(log: &[u8], area: &[u8], state: &[u8], st: State) -> u64
    requires { Usable log.now area.now state.now × (st ≡ state_of state.now) }
    ensures { result ≡ trim_start (lent log.now area.now state.now [] [] 0 0) }
{
    let limit = log_limits::open_limit(state, st.settled / 7);
    if limit == st.start {
        return limit;
    }
    let next = base_state::next_position(st);
    if next <= 7 * limit {
        return limit;
    }
    let n = next - 7 * st.start;
    let end = committed_end(log, st.groups, st.homes, st.start, n);
    log_limits::closed_limit(log, st.groups, st.homes, st.start, end, limit)
}
