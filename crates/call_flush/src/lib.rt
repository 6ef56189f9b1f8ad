// Flush: a part-filled group is handed on, then a fence.
#![tactic(auto)]

ghost use Rattle.std.specs.Prelude.{◌≡◌, cond, [], ◌∷◌, ◌+◌, ◌*◌, ◌%◌, ◌^◌, ◌<◌, ◌≤◌, length, eqb};
ghost use Rattle.model.specs.Bytes.{puts};
ghost use Rattle.model.specs.Layout.{group_at};
ghost use Rattle.model.specs.Batch.{GW, FN, batch_bytes};
ghost use Rattle.model.specs.Effects.{flush_effect};
ghost use Rattle.model.specs.Questions.{flush_answer};
ghost use Rattle.model.specs.Calls.{size_of, flush_call};
ghost use Rattle.call_ask.specs.Lent.{lent, leaves};
ghost use Rattle.model.specs.State.{set_next, set_filled, set_fenced};

use call_ask::Reply;
use model::State;

// Hands on the part-filled group and writes a fence.
fn flush_part(log: &[u8], state: &mut [u8], batch: &mut [u8], st: State)
    requires { (length state.old ≡ 1024) × (518 ≤ length batch.old) × (1 ≤ st.groups) × (64 + 512 * st.groups ≤ length log.now)
        × (st.next < 2 ^ 60) }
    ensures state_after { state.new ≡ set_fenced (set_filled (set_next state.old (st.next + 1)) 0) (7 * (st.next + 1)) }
    ensures batch_after { batch.new
        ≡ puts batch.old 0 (batch_bytes
        (GW (st.next % st.groups) (group_at log.now (st.next % st.groups)) ∷ FN ∷ [])) }
{
    let slot = log_scan::first_slot(st.next, st.groups).slot as usize;
    let at = base_batch::group_write(batch, 0, slot, log);
    base_batch::fence(batch, at);
    let next = st.next + 1;
    base_state::set_next(state, next);
    base_state::set_filled(state, 0);
    base_state::set_fenced(state, 7 * next);
}

// Writes a fence where no group is part-filled.
fn flush_none(state: &mut [u8], batch: &mut [u8], st: State)
    requires { (length state.old ≡ 1024) × (2 ≤ length batch.old) × (st.next < 2 ^ 60) }
    ensures state_after { state.new ≡ set_fenced state.old (7 * st.next) }
    ensures batch_after { batch.new ≡ puts batch.old 0 (batch_bytes (FN ∷ [])) }
{
    base_batch::fence(batch, 0);
    base_state::set_fenced(state, 7 * st.next);
}

// How many bytes a flush writes: a fence, and a part-filled group before it.
fn flush_size(st: State) -> usize
    ensures { result ≡ cond (eqb st.filled 0) 2 (516 + 2) }
{
    if st.filled == 0 {
        return 2;
    }
    516 + 2
}

// The answer of a flush: 0, or the number of the question that refuses it.
fn flush_answer(log: &[u8], area: &[u8], state: &[u8], batch: &[u8]) -> u64
    ensures { result ≡ flush_answer (lent log.now area.now state.now [] batch.now 0 0)
        (size_of (flush_effect (lent log.now area.now state.now [] batch.now 0 0))) }
{
    let asked = call_ask::state_answer(log, area, state);
    if asked != 0 {
        return asked;
    }
    let st = base_state::state(state);
    if !base_state::keeps_promises(state, st) {
        return 18;
    }
    if batch.len() < flush_size(st) {
        return 9;
    }
    0
}

// Hands on a part-filled group, if there is one, and writes a fence.
pub fn flush(log: &[u8], area: &[u8], state: &mut [u8], batch: &mut [u8]) -> Reply
    ensures { leaves result.code result.figure result.size log.now area.now state.new []
        batch.new
        ≡ flush_call (lent log.now area.now state.old [] batch.old 0 0) }
{
    let code = flush_answer(log, area, state, batch);
    if code != 0 {
        return call_ask::refused(code);
    }
    let st = base_state::state(state);
    if st.filled == 0 {
        flush_none(state, batch, st);
        return call_ask::done(0, 2);
    }
    flush_part(log, state, batch, st);
    call_ask::done(0, 516 + 2)
}
