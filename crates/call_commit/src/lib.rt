// Commit: the held block is logged as the closing entry.
#![tactic(auto)]

ghost use Rattle.std.specs.Prelude.{◌≡◌, [], ◌+◌, ◌*◌, ◌≤◌, ◌<◌, length};
ghost use Rattle.model.specs.State.{state_of, next_position, writer_of, set_writer, set_promise, idle, first_for};
ghost use Rattle.model.specs.Effects.{commit_effect};
ghost use Rattle.model.specs.Questions.{commit_answer};
ghost use Rattle.model.specs.Calls.{size_of, commit_call};
ghost use Rattle.call_ask.specs.Lent.{lent_all, leaves_everything};
ghost use Rattle.log_scan.specs.Members.{Stretch};
ghost use Rattle.call_store.specs.Logs.{MayLog, Fits};
ghost use Rattle.call_commit.specs.Closings.{Closed, Committed, kept_under};

use call_ask::Reply;
use call_store::{closing_word, log_answer, log_entry};
use model::{State, Writer};

// Ends the transaction of a writer that holds nothing, and gives back the places promised to it.
fn commit_none(state: &mut [u8], w: usize)
    requires { (length state.old ≡ 1024) × (w < 8) }
    ensures { state.new ≡ set_promise (set_writer state.old w idle) w 0 }
{
    base_writers::abort(state, w);
    base_state::set_promise(state, w, 0);
}

// Logs the held block as the closing entry and ends the transaction.
fn close_held(
    log: &mut [u8],
    state: &mut [u8],
    batch: &mut [u8],
    st: State,
    r: Writer,
    w: usize,
) -> u64
    requires { MayLog log.old state.old batch.old st w × Fits st r (next_position st) }
    ensures { Closed result state.new log.new batch.new state.old log.old
        batch.old st r w }
{
    let position = base_state::next_position(st);
    let word = closing_word(st, r, position);
    let size = log_entry(log, state, batch, word, w);
    base_state::set_last(state, position + 1);
    base_writers::abort(state, w);
    size
}

// Keeps the position of each entry of the transaction that was closed at the next position; where nothing was logged before, that is one position.
fn keep_newest(log: &[u8], newest: &mut [u8], st: State, r: Writer)
    requires { Stretch log.now st.groups st.start (first_for r (next_position st)) (next_position st + 1) × (st.homes ≤ 65535)
        × (length newest.old ≡ 8 * st.homes) × (st.filled ≤ 6) }
    ensures { newest.new ≡ kept_under log.now st r newest.old }
{
    if !base_state::has_logged(r) {
        log_newest::keep_one(
            log,
            st.groups,
            st.homes,
            st.start,
            st.next,
            st.filled as usize,
            newest,
        );
        return;
    }
    let position = base_state::next_position(st);
    let first = base_state::first_for(r, position);
    log_newest::keep_entries(log, st.groups, st.homes, st.start, first, position, newest)
}

// The closing entry, with the places promised to the writer given back, the newest positions kept, and with them the state strip's part of
// the list of rights.
fn commit_held(
    log: &mut [u8],
    area: &[u8],
    state: &mut [u8],
    newest: &mut [u8],
    batch: &mut [u8],
    st: State,
    r: Writer,
    w: usize,
) -> u64
    requires { MayLog log.old state.old batch.old st w × Fits st r (next_position st) × (length newest.old ≡ 8 * st.homes)
        × (length area.now ≡ 64 * st.homes) }
    ensures { Committed result state.new newest.new log.new batch.new state.old
        newest.old log.old batch.old area.now st r w }
{
    let size = close_held(log, state, batch, st, r, w);
    base_state::set_promise(state, w, 0);
    keep_newest(log, newest, st, r);
    call_rights::keep_list(log, area, state, newest);
    size
}

// The same by the numbers and the record that stand in the strip.
pub fn commit_next(
    log: &mut [u8],
    area: &[u8],
    state: &mut [u8],
    newest: &mut [u8],
    batch: &mut [u8],
    w: usize,
) -> u64
    requires { MayLog log.old state.old batch.old (state_of state.old) w
        × Fits (state_of state.old) (writer_of state.old w) (next_position (state_of state.old))
        × (length newest.old ≡ 8 * (state_of state.old).homes) × (length area.now ≡ 64 * (state_of state.old).homes) }
    ensures { Committed result state.new newest.new log.new batch.new state.old
        newest.old log.old batch.old area.now (state_of state.old)
        (writer_of state.old w) w }
{
    let st = base_state::state(state);
    let r = base_state::writer(state, w);
    commit_held(log, area, state, newest, batch, st, r, w)
}

// The answer of a commit: 0, or the number of the question that refuses it.
fn commit_answer(
    log: &[u8],
    area: &[u8],
    state: &[u8],
    newest: &[u8],
    batch: &[u8],
    writer: u64,
) -> u64
    ensures { result ≡ commit_answer (lent_all log.now area.now state.now newest.now []
        batch.now writer 0)
        (size_of (commit_effect (lent_all log.now area.now state.now newest.now []
        batch.now writer 0))) }
{
    let asked = call_ask::newest_answer(log, area, state, newest);
    if asked != 0 {
        return asked;
    }
    if writer >= 8 {
        return 4;
    }
    let r = base_state::writer(state, writer as usize);
    if !base_state::is_open(r) {
        return 7;
    }
    if !base_state::holds(r) {
        return 0;
    }
    log_answer(state, writer as usize, batch.len())
}

// Commits a writer's open transaction: its held block is logged as the closing entry, whose position + 1 is the ticket, and for each home that it
// wrote the last entry's position is kept.
pub fn commit(
    log: &mut [u8],
    area: &[u8],
    state: &mut [u8],
    newest: &mut [u8],
    batch: &mut [u8],
    writer: u64,
) -> Reply
    ensures { leaves_everything result.code result.figure result.size log.new area.now state.new
        newest.new [] batch.new
        ≡ commit_call (lent_all log.old area.now state.old newest.old []
        batch.old writer 0) }
{
    let code = commit_answer(log, area, state, newest, batch, writer);
    if code != 0 {
        return call_ask::refused(code);
    }
    let w = writer as usize;
    let r = base_state::writer(state, w);
    if !base_state::holds(r) {
        commit_none(state, w);
        return call_ask::done(0, 0);
    }
    let st = base_state::state(state);
    let ticket = base_state::next_position(st) + 1;
    let size = commit_next(log, area, state, newest, batch, w);
    call_ask::done(ticket, size)
}
