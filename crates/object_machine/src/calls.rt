// The store's calls by number (specs/Calls.antt).
ghost use Rattle.std.specs.Prelude.{◌≡◌};
ghost use Rattle.call_ask.specs.Lent.{lent_all, leaves_everything};
ghost use Rattle.object_machine.specs.Calls.{writers_call, room_call};

use call_ask::Reply;

// Calls of writers, of opening and of syncing; for any other number, the answer to a store that is not allowed.
pub fn writers_call(
    log: &mut [u8],
    area: &mut [u8],
    state: &mut [u8],
    newest: &mut [u8],
    block: &[u8],
    batch: &mut [u8],
    k: u64,
    writer: u64,
    home: u64,
    n: u64,
) -> Reply
    ensures { leaves_everything result.code result.figure result.size log.new area.new state.new
        newest.new block.now batch.new
        ≡ writers_call k (lent_all log.old area.old state.old newest.old
        block.now batch.old writer home) n }
{
    if k == 1 {
        return kagutin::kagutin_open(log, area, state, newest, batch);
    }
    if k == 2 {
        return kagutin::kagutin_reserve(log, area, state, writer, n);
    }
    if k == 3 {
        return kagutin::kagutin_store(log, area, state, block, batch, writer, home);
    }
    if k == 4 {
        return kagutin::kagutin_commit(log, area, state, newest, batch, writer);
    }
    if k == 5 {
        return kagutin::kagutin_flush(log, area, state, batch);
    }
    if k == 6 {
        return kagutin::kagutin_confirm(log, area, state);
    }
    call_ask::refused(68)
}

// Calls that make room; for any other number, nothing, which is done.
pub fn room_call(
    log: &mut [u8],
    area: &mut [u8],
    state: &mut [u8],
    newest: &mut [u8],
    block: &[u8],
    batch: &mut [u8],
    k: u64,
    writer: u64,
    home: u64,
    n: u64,
) -> Reply
    ensures { leaves_everything result.code result.figure result.size log.new area.new state.new
        newest.new block.now batch.new
        ≡ room_call k (lent_all log.old area.old state.old newest.old
        block.now batch.old writer home) n }
{
    if k == 7 {
        return kagutin::kagutin_settle(log, area, state, batch);
    }
    if k == 8 {
        return kagutin::kagutin_begin_round(log, area, state);
    }
    if k == 9 {
        return kagutin::kagutin_step_round(log, area, state, batch, u64::MAX);
    }
    if k == 10 {
        return kagutin::kagutin_step_round(log, area, state, batch, n);
    }
    if k == 11 {
        return kagutin::kagutin_trim(log, area, state, newest, batch);
    }
    call_ask::refused(0)
}
