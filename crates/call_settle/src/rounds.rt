// Rounds: a settle in small steps. A round fixes the fenced position that it covers; each step brings some homes up to it, and the last one
// settles it.
ghost use Rattle.std.specs.Prelude.{◌≡◌, [], ◌+◌, ◌*◌, ◌^◌, ◌≤◌, ◌<◌, length};
ghost use Rattle.model.specs.State.{set_round, set_cursor};
ghost use Rattle.model.specs.Effects.{round_ended};
ghost use Rattle.model.specs.Calls.{begin_round_call, step_round_call};
ghost use Rattle.call_ask.specs.Lent.{lent, leaves};

use call_ask::Reply;
use model::State;

// Begins a round that covers what is fenced now.
pub fn begin_round(log: &[u8], area: &[u8], state: &mut [u8]) -> Reply
    ensures { leaves result.code result.figure result.size log.now area.now state.new [] []
        ≡ begin_round_call (lent log.now area.now state.old [] [] 0 0) }
{
    let code = call_ask::state_answer(log, area, state);
    if code != 0 {
        return call_ask::refused(code);
    }
    let st = base_state::state(state);
    if st.round != 0 {
        return call_ask::refused(21);
    }
    base_state::set_round(state, st.fenced + 1);
    base_state::set_cursor(state, 0);
    call_ask::done(0, 0)
}

// Settles the position that the round has fixed, fences all groups handed on, and ends the round.
fn end_round(state: &mut [u8], st: State)
    requires { (length state.old ≡ 1024) × (7 * st.next < 2 ^ 64) × (1 ≤ st.round) }
    ensures { state.new ≡ round_ended state.old st }
{
    let next = 7 * st.next;
    base_state::set_settled(state, st.round - 1);
    base_state::set_fenced(state, next);
    base_state::set_round(state, 0);
    base_state::set_cursor(state, 0);
}

// Moves the round on by the next `homes` homes, or all that remain: then it is over.
pub fn step_round(
    log: &[u8],
    area: &mut [u8],
    state: &mut [u8],
    batch: &mut [u8],
    homes: u64,
) -> Reply
    ensures { leaves result.code result.figure result.size log.now area.new state.new [] batch.new
        ≡ step_round_call (lent log.now area.old state.old [] batch.old 0 0) homes }
{
    let code = call_ask::state_answer(log, area, state);
    if code != 0 {
        return call_ask::refused(code);
    }
    let st = base_state::state(state);
    if st.round == 0 {
        return call_ask::refused(21);
    }
    if homes == 0 {
        return call_ask::refused(21);
    }
    let n = st.round - 1 - 7 * st.start;
    let made = log_tables::step(
        log, area, batch, st.groups, st.homes, st.start, n, st.cursor, homes,
    );
    let size = made.size;
    if (batch.len() as u64) < size {
        return call_ask::refused(9);
    }
    if made.more {
        base_state::set_cursor(state, made.next);
        return call_ask::done(0, size);
    }
    base_batch::fence(batch, size as usize - 2);
    end_round(state, st);
    call_ask::done(0, size)
}
