// The questions of transact.
ghost use Rattle.std.specs.Prelude.{◌≡◌, cond, [], ◌+◌, ◌≤◌, leb, length};
ghost use Rattle.model.specs.State.{state_of, free_places};
ghost use Rattle.model.specs.Questions.{ask};
ghost use Rattle.model.specs.Calls.{size_of};
ghost use Rattle.call_ask.specs.Lent.{lent_all};
ghost use Rattle.base_state.specs.Order.{GroupsInOrder};
ghost use Rattle.acts.specs.Many.{transact_answer, transact_effect};

use model::State;

// Questions 8 and 10 of a call that logs `n` entries of an idle writer: 0 if the log has room for them, and the batch for the group that
// they may fill.
fn log_all_answer(state: &[u8], st: State, n: u64, batch: usize) -> u64
    requires { (length state.now ≡ 1024) × GroupsInOrder st × (st ≡ state_of state.now) × (1 ≤ n) × (n ≤ 7) }
    ensures { result ≡ ask (leb n (free_places state.now)) 8 (ask (leb (cond (leb 7 (st.filled + n)) 516 0) batch) 9 0) }
{
    if !base_state::may_promise(state, st, n) {
        return 8;
    }
    if st.filled + n < 7 {
        return 0;
    }
    if batch < 516 {
        return 9;
    }
    0
}

// The answer of a transact: 0, or the number of the question that refuses it.
pub fn transact_answer(
    log: &[u8],
    area: &[u8],
    state: &[u8],
    newest: &[u8],
    blocks: &[u8],
    batch: &[u8],
    writer: u64,
    home: u64,
) -> u64
    ensures { result ≡ transact_answer (lent_all log.now area.now state.now newest.now
        blocks.now batch.now writer home)
        (size_of (transact_effect (lent_all log.now area.now state.now newest.now
        blocks.now batch.now writer home))) }
{
    let asked = call_many_fetch::homes_answer(log, area, state, newest, blocks, writer, home);
    if asked != 0 {
        return asked;
    }
    let count = (blocks.len() / 64) as u64;
    if !call_many_fetch::may_store_all(log, area, state, newest, writer, home, count) {
        return 19;
    }
    if base_state::is_open(base_state::writer(state, writer as usize)) {
        return 6;
    }
    log_all_answer(state, base_state::state(state), count, batch.len())
}
