// Logging a writer's held block: the words of its tag, whether there is room, and the entry itself.
ghost use Rattle.std.specs.Prelude.{◌≡◌, cond, ◌+◌, ◌-◌, ◌*◌, ◌^◌, ◌<◌, ◌≤◌, eqb, leb, length};
ghost use Rattle.model.specs.State.{state_of, held_of, first_for, count_for};
ghost use Rattle.model.specs.Tag.{entry_word, closing_word};
ghost use Rattle.model.specs.Effects.{logged, link_from};
ghost use Rattle.model.specs.Questions.{ask, room_for};
ghost use Rattle.base_state.specs.Order.{GroupsInOrder};
ghost use Rattle.call_store.specs.Logs.{MayLog, Fits, Wrote};

use model::{State, Writer};

// Questions 8 and 10 of a call that logs an entry of writer `w`: 0 if the log has room for it, and the batch for the group that it may fill.
pub fn log_answer(state: &[u8], w: usize, batch: usize) -> u64
    requires { (length state.now ≡ 1024) × (w < 8) × GroupsInOrder (state_of state.now) }
    ensures { result ≡ ask (room_for state.now w) 8 (ask (leb (cond (eqb (state_of state.now).filled 6) 516 0) batch) 9 0) }
{
    let st = base_state::state(state);
    if !base_state::room_for(state, st, w) {
        return 8;
    }
    if st.filled != 6 {
        return 0;
    }
    if batch < 516 {
        return 9;
    }
    0
}

// Logs the held block of writer `w` with the tag `word` at the next position; the seventh place of a group hands it on.
pub fn log_entry(log: &mut [u8], state: &mut [u8], batch: &mut [u8], word: u64, w: usize) -> u64
    requires { MayLog log.old state.old batch.old (state_of state.old) w × (word < 2 ^ 57) }
    ensures { Wrote result state.new log.new batch.new batch.old
        (logged state.old log.old word (held_of state.old w)) }
{
    let st = base_state::state(state);
    let at = log_scan::first_slot(st.next, st.groups);
    let slot = at.slot as usize;
    let held = 320 + 64 * w;
    base_areas::enter(log, slot, at.turn, st, word, &state[held..held + 64]);
    if st.filled != 6 {
        base_state::set_filled(state, st.filled + 1);
        return 0;
    }
    base_state::set_next(state, st.next + 1);
    base_state::set_filled(state, 0);
    base_batch::group_write(batch, 0, slot, log) as u64
}

// The tag of a held block that is logged at `position` and does not close its transaction.
pub fn store_word(st: State, r: Writer, position: u64) -> u64
    requires { Fits st r position }
    ensures { (result ≡ entry_word r.home (position - first_for r position)) × (result < 2 ^ 57) }
{
    base_codec::entry_word(r.home, position - base_state::first_for(r, position))
}

// The distance from `position` back to the last closing entry, 0 if there is none since the start.
pub fn link_from(position: u64, st: State) -> u64
    requires { (7 * st.start ≤ position) × (st.last ≤ position + 1) × (position + 1 < 2 ^ 63) }
    ensures { result ≡ link_from position st }
{
    if st.last <= 7 * st.start {
        return 0;
    }
    position + 1 - st.last
}

// The tag of a held block that is logged at `position` and commits its transaction.
pub fn closing_word(st: State, r: Writer, position: u64) -> u64
    requires { Fits st r position }
    ensures { (result ≡ closing_word r.home (position - first_for r position) (link_from position st) (count_for r + 1)) × (result < 2 ^ 57) }
{
    let back = position - base_state::first_for(r, position);
    let link = link_from(position, st);
    base_codec::commit_word(r.home, back, link, base_state::count_for(r) + 1)
}
