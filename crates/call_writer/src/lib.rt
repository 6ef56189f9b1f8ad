// The calls that change only the strip: begin, reserve for and abort a writer's transaction, and confirm the fences that have passed.
#![tactic(auto)]

ghost use Rattle.std.specs.Prelude.{◌≡◌, []};
ghost use Rattle.model.specs.Questions.{begin_answer, reserve_answer, abort_answer};
ghost use Rattle.model.specs.Calls.{begin_call, reserve_call, abort_call, confirm_call};
ghost use Rattle.call_ask.specs.Lent.{lent, leaves};
ghost use Rattle.call_writer.specs.Writers.{ask_writer};

use call_ask::Reply;

// Questions 1, 2 and 4, which a call that names a writer puts first: 0, or the number of the refusal.
fn writer_answer(log: &[u8], area: &[u8], state: &[u8], writer: u64) -> u64
    ensures { result ≡ ask_writer (lent log.now area.now state.now [] [] writer 0) 0 }
{
    let first = call_ask::state_answer(log, area, state);
    if first != 0 {
        return first;
    }
    if writer >= 8 {
        return 4;
    }
    0
}

// Whether a writer may begin: 0, or the number of the refusal.
fn begin_answer(log: &[u8], area: &[u8], state: &[u8], writer: u64) -> u64
    ensures { result ≡ begin_answer (lent log.now area.now state.now [] [] writer 0) }
{
    let first = writer_answer(log, area, state, writer);
    if first != 0 {
        return first;
    }
    if base_state::is_open(base_state::writer(state, writer as usize)) {
        return 6;
    }
    0
}

// Begins a transaction of a writer that has none open.
pub fn begin(log: &[u8], area: &[u8], state: &mut [u8], writer: u64) -> Reply
    ensures { leaves result.code result.figure result.size log.now area.now state.new [] []
        ≡ begin_call (lent log.now area.now state.old [] [] writer 0) }
{
    let answer = begin_answer(log, area, state, writer);
    if answer != 0 {
        return call_ask::refused(answer);
    }
    base_writers::begin(state, writer as usize);
    call_ask::done(0, 0)
}

// Whether a writer may begin with `n` places promised to it: 0, or the number of the refusal.
fn reserve_answer(log: &[u8], area: &[u8], state: &[u8], writer: u64, n: u64) -> u64
    ensures { result ≡ reserve_answer (lent log.now area.now state.now [] [] writer 0) n }
{
    let first = begin_answer(log, area, state, writer);
    if first != 0 {
        return first;
    }
    if !base_state::may_promise(state, base_state::state(state), n) {
        return 17;
    }
    0
}

// Begins a transaction of a writer that has none open, and promises it `n` places: its first `n` entries find room.
pub fn reserve(log: &[u8], area: &[u8], state: &mut [u8], writer: u64, n: u64) -> Reply
    ensures { leaves result.code result.figure result.size log.now area.now state.new [] []
        ≡ reserve_call (lent log.now area.now state.old [] [] writer 0) n }
{
    let answer = reserve_answer(log, area, state, writer, n);
    if answer != 0 {
        return call_ask::refused(answer);
    }
    base_writers::begin(state, writer as usize);
    base_state::set_promise(state, writer as usize, n);
    call_ask::done(0, 0)
}

// Whether a writer may abort: 0, or the number of the refusal.
fn abort_answer(log: &[u8], area: &[u8], state: &[u8], writer: u64) -> u64
    ensures { result ≡ abort_answer (lent log.now area.now state.now [] [] writer 0) }
{
    let first = writer_answer(log, area, state, writer);
    if first != 0 {
        return first;
    }
    if !base_state::is_open(base_state::writer(state, writer as usize)) {
        return 7;
    }
    0
}

// Drops a writer's open transaction with the block that it holds, and gives back the places promised to it.
pub fn abort(log: &[u8], area: &[u8], state: &mut [u8], writer: u64) -> Reply
    ensures { leaves result.code result.figure result.size log.now area.now state.new [] []
        ≡ abort_call (lent log.now area.now state.old [] [] writer 0) }
{
    let answer = abort_answer(log, area, state, writer);
    if answer != 0 {
        return call_ask::refused(answer);
    }
    base_writers::abort(state, writer as usize);
    base_state::set_promise(state, writer as usize, 0);
    call_ask::done(0, 0)
}

// Makes the fenced position the durable mark, and returns it: all fences so far have passed.
pub fn confirm(log: &[u8], area: &[u8], state: &mut [u8]) -> Reply
    ensures { leaves result.code result.figure result.size log.now area.now state.new [] []
        ≡ confirm_call (lent log.now area.now state.old [] [] 0 0) }
{
    let answer = call_ask::state_answer(log, area, state);
    if answer != 0 {
        return call_ask::refused(answer);
    }
    let fenced = base_state::state(state).fenced;
    base_state::set_durable(state, fenced);
    call_ask::done(fenced, 0)
}
