// The questions of the calls on several homes.
ghost use Rattle.std.specs.Prelude.{◌≡◌, ◌&&◌, [], ◌+◌, ◌*◌, ◌/◌, eqb, leb};
ghost use Rattle.call_ask.specs.Lent.{lent_all};
ghost use Rattle.acts.specs.Many.{ask_homes, fetch_answer, revise_answer};

use crate::allowed::{may_read_all, may_store_all};

// Whether a strip of home blocks may have `len` bytes: one to seven whole blocks.
fn blocks_right(len: usize) -> bool
    ensures { result ≡ (eqb len (64 * (len / 64)) && leb 1 (len / 64) && leb (len / 64) 7) }
{
    if len % 64 != 0 {
        return false;
    }
    if len < 64 {
        return false;
    }
    len <= 448
}

// Whether the `n` homes from `home` on are all below `homes`.
fn homes_known(homes: u64, home: u64, n: u64) -> bool
    ensures { result ≡ leb (home + n) homes }
{
    if home > homes {
        return false;
    }
    n <= homes - home
}

// Questions 1, 2, 4 and 5, which each call on several homes puts first: 0 if none refuses it, else the number of the refusal.
pub fn homes_answer(
    log: &[u8],
    area: &[u8],
    state: &[u8],
    newest: &[u8],
    blocks: &[u8],
    writer: u64,
    home: u64,
) -> u64
    ensures { result ≡ ask_homes (lent_all log.now area.now state.now newest.now
        blocks.now [] writer home) 0 }
{
    if !blocks_right(blocks.len()) {
        return 1;
    }
    let asked = call_ask::newest_answer(log, area, state, newest);
    if asked != 0 {
        return asked;
    }
    if writer >= 8 {
        return 4;
    }
    if !homes_known(
        base_areas::data_homes(area.len()),
        home,
        (blocks.len() / 64) as u64,
    ) {
        return 5;
    }
    0
}

// The answer of a fetch: 0, or the number of the question that refuses it.
pub fn fetch_answer(
    log: &[u8],
    area: &[u8],
    state: &[u8],
    newest: &[u8],
    blocks: &[u8],
    writer: u64,
    home: u64,
) -> u64
    ensures { result ≡ fetch_answer (lent_all log.now area.now state.now newest.now
        blocks.now [] writer home) }
{
    let asked = homes_answer(log, area, state, newest, blocks, writer, home);
    if asked != 0 {
        return asked;
    }
    if !may_read_all(
        log,
        area,
        state,
        newest,
        writer,
        home,
        (blocks.len() / 64) as u64,
    ) {
        return 20;
    }
    0
}

// The answer of a revise: that of a fetch, which asks for the right to store too.
pub fn revise_answer(
    log: &[u8],
    area: &[u8],
    state: &[u8],
    newest: &[u8],
    blocks: &[u8],
    writer: u64,
    home: u64,
) -> u64
    ensures { result ≡ revise_answer (lent_all log.now area.now state.now newest.now
        blocks.now [] writer home) }
{
    let asked = homes_answer(log, area, state, newest, blocks, writer, home);
    if asked != 0 {
        return asked;
    }
    let n = (blocks.len() / 64) as u64;
    if !may_store_all(log, area, state, newest, writer, home, n) {
        return 19;
    }
    if !may_read_all(log, area, state, newest, writer, home, n) {
        return 20;
    }
    0
}
