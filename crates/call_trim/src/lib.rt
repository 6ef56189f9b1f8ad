// The call trim: the log's start moves up to the highest group that no transaction lies across.
#![tactic(auto)]

mod moves;
mod start;

ghost use Rattle.std.specs.Prelude.{◌≡◌, []};
ghost use Rattle.model.specs.Calls.{trim_call};
ghost use Rattle.call_ask.specs.Lent.{lent_all, leaves_everything};

use base_codec::MAX_START;
use call_ask::Reply;
use moves::move_start;
use start::new_start;

// Moves the log's start up as far as no open or committed transaction lies across it, and writes the new header and a fence if it moves.
// Kept positions before the new start become none.
pub fn trim(
    log: &mut [u8],
    area: &[u8],
    state: &mut [u8],
    newest: &mut [u8],
    batch: &mut [u8],
) -> Reply
    ensures { leaves_everything result.code result.figure result.size log.new area.now state.new
        newest.new [] batch.new
        ≡ trim_call (lent_all log.old area.now state.old newest.old [] batch.old 0 0) }
{
    let code = call_ask::newest_answer(log, area, state, newest);
    if code != 0 {
        return call_ask::refused(code);
    }
    let st = base_state::state(state);
    let start = new_start(log, area, state, st);
    if MAX_START < start {
        return call_ask::refused(10);
    }
    if start == st.start {
        return call_ask::done(0, 0);
    }
    if batch.len() < 68 {
        return call_ask::refused(9);
    }
    move_start(log, state, newest, batch, st, start);
    call_ask::done(0, 68)
}
