// The calls of the store as C sees them: each is the proved call of its crate under an exported name.
#![tactic(auto)]

ghost use Rattle.std.specs.Prelude.{◌≡◌, []};
ghost use Rattle.model.specs.Calls.{format_call, open_call, begin_call, reserve_call, abort_call, store_call, commit_call, flush_call, confirm_call, settle_call, trim_call, read_call, begin_round_call, step_round_call};
ghost use Rattle.acts.specs.Many.{fetch_call, revise_call, transact_call};
ghost use Rattle.abstract_store.specs.Usage.{usage_call};
ghost use Rattle.call_ask.specs.Lent.{lent_all, leaves_everything, lent, leaves};

use call_ask::Reply;
use model::Usage;

// Writes an empty store: every group unused, every home zeros, then the header. [S-7, S-9, S-21, S-22]
#[unsafe(no_mangle)]
pub extern "C" fn kagutin_format(log: &mut [u8], area: &mut [u8], batch: &mut [u8]) -> Reply
    ensures { leaves result.code result.figure result.size log.new area.new [] [] batch.new
        ≡ format_call (lent log.old area.old [] [] batch.old 0 0) }
{
    call_open::format(log, area, batch)
}

// Brings back what a power cut left: replays the committed transactions into the data copy and starts the log anew. [S-7, S-9, S-24, S-26]
#[unsafe(no_mangle)]
pub extern "C" fn kagutin_open(
    log: &mut [u8],
    area: &mut [u8],
    state: &mut [u8],
    newest: &mut [u8],
    batch: &mut [u8],
) -> Reply
    ensures { leaves_everything result.code result.figure result.size log.new area.new state.new
        newest.new [] batch.new
        ≡ open_call (lent_all log.old area.old state.old newest.old []
        batch.old 0 0) }
{
    call_open::reopen(log, area, state, newest, batch)
}

// Begins a transaction of a writer that has none open. [S-7, S-9, S-28]
#[unsafe(no_mangle)]
pub extern "C" fn kagutin_begin(log: &[u8], area: &[u8], state: &mut [u8], writer: u64) -> Reply
    ensures { leaves result.code result.figure result.size log.now area.now state.new [] []
        ≡ begin_call (lent log.now area.now state.old [] [] writer 0) }
{
    call_writer::begin(log, area, state, writer)
}

// Begins a transaction of a writer that has none open, and promises it `n` places: its first `n` entries find room. [S-7, S-9, S-43]
#[unsafe(no_mangle)]
pub extern "C" fn kagutin_reserve(
    log: &[u8],
    area: &[u8],
    state: &mut [u8],
    writer: u64,
    n: u64,
) -> Reply
    ensures { leaves result.code result.figure result.size log.now area.now state.new [] []
        ≡ reserve_call (lent log.now area.now state.old [] [] writer 0) n }
{
    call_writer::reserve(log, area, state, writer, n)
}

// Drops a writer's open transaction with the block that it holds, and gives back the places promised to it. [S-7, S-9, S-28]
#[unsafe(no_mangle)]
pub extern "C" fn kagutin_abort(log: &[u8], area: &[u8], state: &mut [u8], writer: u64) -> Reply
    ensures { leaves result.code result.figure result.size log.now area.now state.new [] []
        ≡ abort_call (lent log.now area.now state.old [] [] writer 0) }
{
    call_writer::abort(log, area, state, writer)
}

// Holds a block for a home in a writer's open transaction; a block held for another home is logged first. [S-7, S-9, S-29, S-30]
#[unsafe(no_mangle)]
pub extern "C" fn kagutin_store(
    log: &mut [u8],
    area: &[u8],
    state: &mut [u8],
    block: &[u8],
    batch: &mut [u8],
    writer: u64,
    home: u64,
) -> Reply
    ensures { leaves result.code result.figure result.size log.new area.now state.new block.now
        batch.new
        ≡ store_call (lent log.old area.now state.old block.now
        batch.old writer home) }
{
    call_store::store(log, area, state, block, batch, writer, home)
}

// Ends a writer's transaction: logs the held block as its closing entry, and returns the ticket. [S-7, S-9, S-31]
#[unsafe(no_mangle)]
pub extern "C" fn kagutin_commit(
    log: &mut [u8],
    area: &[u8],
    state: &mut [u8],
    newest: &mut [u8],
    batch: &mut [u8],
    writer: u64,
) -> Reply
    ensures { leaves_everything result.code result.figure result.size log.new area.now state.new
        newest.new [] batch.new
        ≡ commit_call (lent_all log.old area.now state.old newest.old []
        batch.old writer 0) }
{
    call_commit::commit(log, area, state, newest, batch, writer)
}

// Submits the group that is being filled, and a fence. [S-7, S-9, S-33]
#[unsafe(no_mangle)]
pub extern "C" fn kagutin_flush(
    log: &[u8],
    area: &[u8],
    state: &mut [u8],
    batch: &mut [u8],
) -> Reply
    ensures { leaves result.code result.figure result.size log.now area.now state.new []
        batch.new
        ≡ flush_call (lent log.now area.now state.old [] batch.old 0 0) }
{
    call_flush::flush(log, area, state, batch)
}

// Makes the fenced position the durable mark, and returns it. [S-7, S-9, S-34]
#[unsafe(no_mangle)]
pub extern "C" fn kagutin_confirm(log: &[u8], area: &[u8], state: &mut [u8]) -> Reply
    ensures { leaves result.code result.figure result.size log.now area.now state.new [] []
        ≡ confirm_call (lent log.now area.now state.old [] [] 0 0) }
{
    call_writer::confirm(log, area, state)
}

// Writes the homes of the commits below the fenced position, and a fence. [S-7, S-9, S-38]
#[unsafe(no_mangle)]
pub extern "C" fn kagutin_settle(
    log: &[u8],
    area: &mut [u8],
    state: &mut [u8],
    batch: &mut [u8],
) -> Reply
    ensures { leaves result.code result.figure result.size log.now area.new state.new [] batch.new
        ≡ settle_call (lent log.now area.old state.old [] batch.old 0 0) }
{
    call_settle::settle(log, area, state, batch)
}

// Begins a round of settling in small steps, which covers the commits below the fenced position of now. [S-7, S-9, S-40]
#[unsafe(no_mangle)]
pub extern "C" fn kagutin_begin_round(log: &[u8], area: &[u8], state: &mut [u8]) -> Reply
    ensures { leaves result.code result.figure result.size log.now area.now state.new [] []
        ≡ begin_round_call (lent log.now area.now state.old [] [] 0 0) }
{
    call_settle::begin_round(log, area, state)
}

// Writes the next `homes` homes of the round under way; with the last of them a fence, and the round is over. [S-7, S-9, S-40]
#[unsafe(no_mangle)]
pub extern "C" fn kagutin_step_round(
    log: &[u8],
    area: &mut [u8],
    state: &mut [u8],
    batch: &mut [u8],
    homes: u64,
) -> Reply
    ensures { leaves result.code result.figure result.size log.now area.new state.new [] batch.new
        ≡ step_round_call (lent log.now area.old state.old [] batch.old 0 0) homes }
{
    call_settle::step_round(log, area, state, batch, homes)
}

// Moves the log's start up as far as no transaction lies across it. [S-7, S-9, S-39]
#[unsafe(no_mangle)]
pub extern "C" fn kagutin_trim(
    log: &mut [u8],
    area: &[u8],
    state: &mut [u8],
    newest: &mut [u8],
    batch: &mut [u8],
) -> Reply
    ensures { leaves_everything result.code result.figure result.size log.new area.now state.new
        newest.new [] batch.new
        ≡ trim_call (lent_all log.old area.now state.old newest.old []
        batch.old 0 0) }
{
    call_trim::trim(log, area, state, newest, batch)
}

// Reads the block of a home as a writer sees it. [S-7, S-9, S-35, S-37]
#[unsafe(no_mangle)]
pub extern "C" fn kagutin_read(
    log: &[u8],
    area: &[u8],
    state: &[u8],
    newest: &[u8],
    block: &mut [u8],
    writer: u64,
    home: u64,
) -> Reply
    ensures { leaves_everything result.code result.figure result.size log.now area.now state.now
        newest.now block.new []
        ≡ read_call (lent_all log.now area.now state.now newest.now
        block.old [] writer home) }
{
    call_read::read(log, area, state, newest, block, writer, home)
}

// Reads the blocks of one to seven homes from `home` on, one behind the other, as a writer that may read them all sees them. [S-7, S-9, S-62]
#[unsafe(no_mangle)]
pub extern "C" fn kagutin_fetch(
    log: &[u8],
    area: &[u8],
    state: &[u8],
    newest: &[u8],
    blocks: &mut [u8],
    writer: u64,
    home: u64,
) -> Reply
    ensures { leaves_everything result.code result.figure result.size log.now area.now state.now
        newest.now blocks.new []
        ≡ fetch_call (lent_all log.now area.now state.now newest.now
        blocks.old [] writer home) }
{
    call_many_fetch::fetch(log, area, state, newest, blocks, writer, home)
}

// The same for a writer that is going to store what it makes of the blocks: it may store to the homes, too. [S-7, S-9, S-62]
#[unsafe(no_mangle)]
pub extern "C" fn kagutin_revise(
    log: &[u8],
    area: &[u8],
    state: &[u8],
    newest: &[u8],
    blocks: &mut [u8],
    writer: u64,
    home: u64,
) -> Reply
    ensures { leaves_everything result.code result.figure result.size log.now area.now state.now
        newest.now blocks.new []
        ≡ revise_call (lent_all log.now area.now state.now newest.now
        blocks.old [] writer home) }
{
    call_many_fetch::revise(log, area, state, newest, blocks, writer, home)
}

// Begins a transaction of an idle writer, stores one to seven blocks for the homes from `home` on and commits them. The figure is the ticket.
// [S-7, S-9, S-62]
#[unsafe(no_mangle)]
pub extern "C" fn kagutin_transact(
    log: &mut [u8],
    area: &[u8],
    state: &mut [u8],
    newest: &mut [u8],
    blocks: &[u8],
    batch: &mut [u8],
    writer: u64,
    home: u64,
) -> Reply
    ensures { leaves_everything result.code result.figure result.size log.new area.now state.new
        newest.new blocks.now batch.new
        ≡ transact_call (lent_all log.old area.now state.old newest.old blocks.now
        batch.old writer home) }
{
    call_many::transact(log, area, state, newest, blocks, batch, writer, home)
}

// Tells how many places of the log are live, dead, free and promised, and which open transaction lies lowest in it. [S-7, S-9, S-45]
#[unsafe(no_mangle)]
pub extern "C" fn kagutin_usage(log: &[u8], area: &[u8], state: &[u8]) -> Usage
    ensures { result ≡ usage_call (lent log.now area.now state.now [] [] 0 0) }
{
    call_usage::usage(log, area, state)
}
