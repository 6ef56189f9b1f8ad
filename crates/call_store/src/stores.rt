// Store: the writer holds one block; a block for another home first logs the held one.
ghost use Rattle.std.specs.Prelude.{◌≡◌, true, false, ◌≢◌, ◌<◌, length};
ghost use Rattle.model.specs.State.{state_of, next_position, writer_of, set_writer, set_held, holding, holds};
ghost use Rattle.model.specs.Effects.{store_effect};
ghost use Rattle.model.specs.Questions.{store_answer};
ghost use Rattle.model.specs.Calls.{size_of, store_call};
ghost use Rattle.call_ask.specs.Lent.{lent, leaves};
ghost use Rattle.call_store.specs.Logs.{MayLog, Fits, HeldNext, StoredOther};

use crate::entry::{log_answer, log_entry, store_word};
use call_ask::Reply;
use model::{State, Writer};

// Holds the first block of a transaction.
pub fn store_first(state: &mut [u8], block: &[u8], r: Writer, w: usize, home: u64)
    requires { (length state.old ≡ 1024) × (w < 8) × (length block.now ≡ 64) × (holds r ≡ false) }
    ensures { state.new ≡ set_held (set_writer state.old w (holding home)) w block.now }
{
    base_writers::hold(state, w, r, home, 0);
    base_state::set_held(state, w, block);
}

// Logs the held block and holds the next one, for another home. The record is changed first: the numbers and the block that are logged stay.
fn hold_next(
    log: &mut [u8],
    state: &mut [u8],
    block: &[u8],
    batch: &mut [u8],
    st: State,
    r: Writer,
    w: usize,
    home: u64,
) -> u64
    requires { MayLog log.old state.old batch.old st w × Fits st r (next_position st) × (length block.now ≡ 64) × (holds r ≡ true)
        × (r.home ≢ home) }
    ensures { HeldNext result state.new log.new batch.new state.old log.old
        batch.old block.now st r w home }
{
    let position = base_state::next_position(st);
    let word = store_word(st, r, position);
    base_writers::hold(state, w, r, home, position);
    let size = log_entry(log, state, batch, word, w);
    base_state::set_held(state, w, &block[0..64]);
    size
}

// The same, and the entry uses up one of the places promised to the writer, if any is left.
fn store_other(
    log: &mut [u8],
    state: &mut [u8],
    block: &[u8],
    batch: &mut [u8],
    st: State,
    r: Writer,
    w: usize,
    home: u64,
) -> u64
    requires { MayLog log.old state.old batch.old st w × Fits st r (next_position st) × (length block.now ≡ 64) × (holds r ≡ true)
        × (r.home ≢ home) }
    ensures { StoredOther result state.new log.new batch.new state.old log.old
        batch.old block.now st r w home }
{
    let left = base_state::promise_left(state, w);
    let size = hold_next(log, state, block, batch, st, r, w, home);
    base_state::set_promise(state, w, left);
    size
}

// The same by the numbers and the record that stand in the strip.
pub fn store_next(
    log: &mut [u8],
    state: &mut [u8],
    block: &[u8],
    batch: &mut [u8],
    w: usize,
    home: u64,
) -> u64
    requires { MayLog log.old state.old batch.old (state_of state.old) w
        × Fits (state_of state.old) (writer_of state.old w) (next_position (state_of state.old))
        × (length block.now ≡ 64) × (holds (writer_of state.old w) ≡ true) × ((writer_of state.old w).home ≢ home) }
    ensures { StoredOther result state.new log.new batch.new state.old log.old
        batch.old block.now (state_of state.old) (writer_of state.old w) w home }
{
    let st = base_state::state(state);
    let r = base_state::writer(state, w);
    store_other(log, state, block, batch, st, r, w, home)
}

// The answer of a store: 0, or the number of the question that refuses it.
fn store_answer(
    log: &[u8],
    area: &[u8],
    state: &[u8],
    block: &[u8],
    batch: &[u8],
    writer: u64,
    home: u64,
) -> u64
    ensures { result ≡ store_answer (lent log.now area.now state.now block.now
        batch.now writer home)
        (size_of (store_effect (lent log.now area.now state.now block.now
        batch.now writer home))) }
{
    let asked = call_ask::block_answer(log, area, state, block);
    if asked != 0 {
        return asked;
    }
    if writer >= 8 {
        return 4;
    }
    if home >= base_areas::data_homes(area.len()) {
        return 5;
    }
    if !call_rights::may_store(log, area, state, writer, home) {
        return 19;
    }
    let r = base_state::writer(state, writer as usize);
    if !base_state::is_open(r) {
        return 7;
    }
    if !base_state::holds(r) {
        return 0;
    }
    if r.home == home {
        return 0;
    }
    log_answer(state, writer as usize, batch.len())
}

// Holds a block for a home in a writer's open transaction; a block held for another home is logged first.
pub fn store(
    log: &mut [u8],
    area: &[u8],
    state: &mut [u8],
    block: &[u8],
    batch: &mut [u8],
    writer: u64,
    home: u64,
) -> Reply
    ensures { leaves result.code result.figure result.size log.new area.now state.new block.now
        batch.new
        ≡ store_call (lent log.old area.now state.old block.now
        batch.old writer home) }
{
    let code = store_answer(log, area, state, block, batch, writer, home);
    if code != 0 {
        return call_ask::refused(code);
    }
    let w = writer as usize;
    let r = base_state::writer(state, w);
    if !base_state::holds(r) {
        store_first(state, block, r, w, home);
        return call_ask::done(0, 0);
    }
    if r.home == home {
        base_state::set_held(state, w, block);
        return call_ask::done(0, 0);
    }
    let size = store_next(log, state, block, batch, w, home);
    call_ask::done(0, size)
}
