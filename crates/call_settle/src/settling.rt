// Settle: the committed transactions below the fenced position go into the data copy and the data area.
ghost use Rattle.std.specs.Prelude.{◌≡◌, [], ◌*◌, ◌^◌, ◌<◌, length};
ghost use Rattle.model.specs.State.{set_settled, set_fenced};
ghost use Rattle.model.specs.Calls.{settle_call};
ghost use Rattle.call_ask.specs.Lent.{lent, leaves};

use call_ask::Reply;
use model::State;

// Stores the former fenced position as the settled one, and fences all groups handed on.
fn settle_state(state: &mut [u8], st: State)
    requires { (length state.old ≡ 1024) × (7 * st.next < 2 ^ 64) }
    ensures { state.new ≡ set_fenced (set_settled state.old st.fenced) (7 * st.next) }
{
    let next = 7 * st.next;
    base_state::set_settled(state, st.fenced);
    base_state::set_fenced(state, next);
}

// Brings the data copy and the data area up to the fenced position.
pub fn settle(log: &[u8], area: &mut [u8], state: &mut [u8], batch: &mut [u8]) -> Reply
    ensures { leaves result.code result.figure result.size log.now area.new state.new [] batch.new
        ≡ settle_call (lent log.now area.old state.old [] batch.old 0 0) }
{
    let code = call_ask::state_answer(log, area, state);
    if code != 0 {
        return call_ask::refused(code);
    }
    let st = base_state::state(state);
    if st.round != 0 {
        return call_ask::refused(21);
    }
    let n = st.fenced - 7 * st.start;
    let size = log_tables::bring_back(log, area, batch, st.groups, st.homes, st.start, n, 2).size;
    if (batch.len() as u64) < size {
        return call_ask::refused(9);
    }
    base_batch::fence(batch, size as usize - 2);
    settle_state(state, st);
    call_ask::done(0, size)
}
