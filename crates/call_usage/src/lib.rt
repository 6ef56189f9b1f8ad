// What fills a log: the call usage.
#![tactic(auto)]

mod entries;
mod writers;

ghost use Rattle.std.specs.Prelude.{◌≡◌, [], ◌+◌, ◌-◌, ◌^◌, ◌<◌};
ghost use Rattle.model.specs.State.{state_of};
ghost use Rattle.abstract_store.specs.Usage.{committed_entries, open_entries, usage_of, usage_refused, usage_call};
ghost use Rattle.call_ask.specs.Lent.{lent};
ghost use Rattle.call_ask.proofs.AnswerLaws.{Usable};

use entries::committed_entries;
use model::{State, Usage};
pub use writers::holder;
use writers::open_entries;

// What a refused call tells.
fn refused(code: u64) -> Usage
    ensures { result ≡ usage_refused code }
{
    Usage {
        code,
        live: 0,
        dead: 0,
        free: 0,
        promised: 0,
        holder: 0,
        first: 0,
    }
}

// The places that are live: entries of committed transactions in the log copy, and those that open transactions have logged.
fn live_entries(log: &[u8], area: &[u8], state: &[u8], st: State) -> u64
    requires { Usable log.now area.now state.now × (st ≡ state_of state.now) }
    ensures { result ≡ committed_entries (lent log.now area.now state.now [] [] 0 0) + open_entries
        state.now 8 }
{
    let n = base_state::next_position(st) - 7 * st.start;
    let committed = committed_entries(log, st.groups, st.homes, st.start, n);
    committed + open_entries(state)
}

// What is left of some places, none if there are fewer.
fn rest(places: u64, used: u64) -> u64
    ensures { result ≡ places - used }
{
    if places < used {
        return 0;
    }
    places - used
}

// What a done call tells.
fn told(log: &[u8], area: &[u8], state: &[u8]) -> Usage
    requires { Usable log.now area.now state.now }
    ensures { result ≡ usage_of (lent log.now area.now state.now [] [] 0 0) }
{
    let st = base_state::state(state);
    let live = live_entries(log, area, state, st);
    let free = base_state::places(st);
    let dead = rest(7 * st.groups - free, live);
    let promised = base_state::promised(state);
    let held = holder(state);
    Usage {
        code: 0,
        live,
        dead,
        free,
        promised,
        holder: held.writer,
        first: held.first,
    }
}

// Tells how many places of the log are live, dead, free and promised, and which open transaction lies lowest in it.
pub fn usage(log: &[u8], area: &[u8], state: &[u8]) -> Usage
    ensures { result ≡ usage_call (lent log.now area.now state.now [] [] 0 0) }
{
    let code = call_ask::state_answer(log, area, state);
    if code != 0 {
        return refused(code);
    }
    told(log, area, state)
}
