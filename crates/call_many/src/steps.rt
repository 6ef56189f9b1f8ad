// The stores of a transact: one block is held, and each further one logs the held one first.
ghost use Rattle.std.specs.Prelude.{◌≡◌, true, List, ◌≢◌, ℕ, ◌*◌, ◌/◌, ◌<◌, ◌≤◌, length};
ghost use Rattle.model.specs.Bytes.{part};
ghost use Rattle.model.specs.State.{state_of, next_position, writer_of, set_writer, set_held, begun, holding, holds};
ghost use Rattle.model.specs.Effects.{Given};
ghost use Rattle.call_ask.specs.Lent.{lent_all};
ghost use Rattle.call_store.specs.Logs.{MayLog, Fits, StoredOther};
ghost use Rattle.acts.specs.Many.{stored_first};
ghost use Rattle.call_many.specs.Steps.{Several, BatchRoom, Reached, Under};

// Begins a transaction of the writer `w`, which holds the first of the lent blocks.
fn hold_first(state: &mut [u8], blocks: &[u8], w: usize, home: u64)
    requires { (length state.old ≡ 1024) × (w < 8) × (64 ≤ length blocks.now) }
    ensures { state.new
        ≡ set_held (set_writer (set_writer state.old w begun) w (holding home)) w (part blocks.now 0 64) }
{
    base_writers::begin(state, w);
    let r = base_state::writer(state, w);
    call_store::store_first(state, &blocks[0..64], r, w, home)
}

// Stores the lent blocks but the first, which is held, by rising home. Returns how many bytes of the batch are written.
fn store_rest(
    log: &mut [u8],
    state: &mut [u8],
    blocks: &[u8],
    batch: &mut [u8],
    w: usize,
    home: u64,
) -> u64
    requires { (g : Given) × Under g blocks.now w home (length blocks.now / 64) 1 0 state.old log.old batch.old }
    ensures { (g : Given)
        → Under g blocks.now w home (length blocks.now / 64) 1 0 state.old log.old
        batch.old
        → Under g blocks.now w home (length blocks.now / 64) (length blocks.now / 64) result state.new
        log.new batch.new }
{
    let n = blocks.len() / 64;
    let mut size: u64 = 0;
    let mut i: usize = 1;
    while i < n {
        let at = 64 * i;
        size += call_store::store_next(log, state, &blocks[at..at + 64], batch, w, home + i as u64);
        i += 1;
    }
    size
}

// Begins a transaction of the writer `w` and stores the lent blocks in it by rising home. Returns how many bytes of the batch are written.
pub fn store_all(
    log: &mut [u8],
    state: &mut [u8],
    blocks: &[u8],
    batch: &mut [u8],
    w: usize,
    home: u64,
) -> u64
    requires { Several log.old state.old blocks.now w home (length blocks.now / 64)
        × BatchRoom state.old batch.old (length blocks.now / 64) }
    ensures { (a p : List ℕ)
        → Reached result state.new log.new batch.new batch.old
        (stored_first (lent_all log.old a state.old p blocks.now batch.old w home)
        (length blocks.now / 64)) }
{
    hold_first(state, blocks, w, home);
    store_rest(log, state, blocks, batch, w, home)
}
