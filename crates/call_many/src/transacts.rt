// Transact: begin, a store for each lent block, and commit, under one verdict.
ghost use Rattle.std.specs.Prelude.{◌≡◌};
ghost use Rattle.call_ask.specs.Lent.{lent_all, leaves_everything};
ghost use Rattle.acts.specs.Many.{transact_call};

use crate::questions::transact_answer;
use crate::steps::store_all;
use call_ask::Reply;

// Commits one to seven blocks for the homes from `home` on, in one transaction of a writer that has none open and may store to them all.
// The figure is the ticket.
pub fn transact(
    log: &mut [u8],
    area: &[u8],
    state: &mut [u8],
    newest: &mut [u8],
    blocks: &[u8],
    batch: &mut [u8],
    writer: u64,
    home: u64,
) -> Reply
    ensures { leaves_everything result.code result.figure result.size log.new area.now state.new
        newest.new blocks.now batch.new
        ≡ transact_call (lent_all log.old area.now state.old newest.old blocks.now
        batch.old writer home) }
{
    let code = transact_answer(log, area, state, newest, blocks, batch, writer, home);
    if code != 0 {
        return call_ask::refused(code);
    }
    let w = writer as usize;
    let stored = store_all(log, state, blocks, batch, w, home);
    let st = base_state::state(state);
    let ticket = base_state::next_position(st) + 1;
    let size = call_commit::commit_next(log, area, state, newest, batch, w);
    call_ask::done(ticket, stored + size)
}
