// Fetch and revise: the blocks of several homes in a row as a writer sees them.
ghost use Rattle.std.specs.Prelude.{◌≡◌, [], ◌+◌, ◌*◌, ◌/◌, ◌<◌, ◌≤◌, length};
ghost use Rattle.model.specs.Bytes.{puts};
ghost use Rattle.model.specs.Layout.{home_count};
ghost use Rattle.call_ask.specs.Lent.{lent_all, leaves_everything};
ghost use Rattle.call_ask.proofs.AnswerLaws.{Usable};
ghost use Rattle.call_read.specs.Shown.{read_block};
ghost use Rattle.acts.specs.Many.{blocks_read, fetch_call, revise_call};

use crate::questions::{fetch_answer, revise_answer};
use call_ask::Reply;

// Copies the block of a home that a writer sees to the index `at`.
fn show_at(
    log: &[u8],
    area: &[u8],
    state: &[u8],
    newest: &[u8],
    blocks: &mut [u8],
    at: usize,
    writer: u64,
    home: u64,
)
    requires { Usable log.now area.now state.now × (at + 64 ≤ length blocks.old)
        × (length newest.now ≡ 8 * home_count (length area.now)) × (writer < 8) × (home < home_count (length area.now)) }
    ensures { (blocks.new
        ≡ puts blocks.old at (read_block
        (lent_all log.now area.now state.now newest.now [] [] writer home)))
        × (length (read_block (lent_all log.now area.now state.now newest.now [] [] writer home)) ≡ 64) }
{
    call_read::show(
        log,
        area,
        state,
        newest,
        &mut blocks[at..at + 64],
        writer,
        home,
    )
}

// Copies the blocks that a writer sees of the homes from `home` on, one behind the other.
fn show_all(
    log: &[u8],
    area: &[u8],
    state: &[u8],
    newest: &[u8],
    blocks: &mut [u8],
    writer: u64,
    home: u64,
)
    requires { Usable log.now area.now state.now × (length newest.now ≡ 8 * home_count (length area.now))
        × (length blocks.old ≡ 64 * (length blocks.old / 64)) × (writer < 8)
        × (home + length blocks.old / 64 ≤ home_count (length area.now)) }
    ensures { blocks.new
        ≡ blocks_read (lent_all log.now area.now state.now newest.now
        blocks.old [] writer home)
        (length blocks.old / 64) }
{
    let n = blocks.len() / 64;
    let mut i: usize = 0;
    while i < n {
        show_at(
            log,
            area,
            state,
            newest,
            blocks,
            64 * i,
            writer,
            home + i as u64,
        );
        i += 1;
    }
}

// Reads the blocks of one to seven homes from `home` on, one behind the other, as a writer that may read them all sees them.
pub fn fetch(
    log: &[u8],
    area: &[u8],
    state: &[u8],
    newest: &[u8],
    blocks: &mut [u8],
    writer: u64,
    home: u64,
) -> Reply
    ensures { leaves_everything result.code result.figure result.size log.now area.now state.now
        newest.now blocks.new []
        ≡ fetch_call (lent_all log.now area.now state.now newest.now
        blocks.old [] writer home) }
{
    let code = fetch_answer(log, area, state, newest, blocks, writer, home);
    if code != 0 {
        return call_ask::refused(code);
    }
    show_all(log, area, state, newest, blocks, writer, home);
    call_ask::done(0, 0)
}

// The same for a writer that is going to store what it makes of them: it may store to them all, too.
pub fn revise(
    log: &[u8],
    area: &[u8],
    state: &[u8],
    newest: &[u8],
    blocks: &mut [u8],
    writer: u64,
    home: u64,
) -> Reply
    ensures { leaves_everything result.code result.figure result.size log.now area.now state.now
        newest.now blocks.new []
        ≡ revise_call (lent_all log.now area.now state.now newest.now
        blocks.old [] writer home) }
{
    let code = revise_answer(log, area, state, newest, blocks, writer, home);
    if code != 0 {
        return call_ask::refused(code);
    }
    show_all(log, area, state, newest, blocks, writer, home);
    call_ask::done(0, 0)
}
