// The block that a read shows: the held one, that of an entry, or that of the home.
ghost use Rattle.std.specs.Prelude.{◌≡◌, [], ◌*◌, ◌<◌, length};
ghost use Rattle.model.specs.Layout.{home_count};
ghost use Rattle.model.specs.State.{held_of, holds_home};
ghost use Rattle.call_ask.specs.Lent.{lent_all};
ghost use Rattle.call_ask.proofs.AnswerLaws.{Usable};
ghost use Rattle.call_read.specs.Shown.{read_block};

use crate::newest::seen;
use model::Writer;

// Whether a writer holds a block for a home.
fn holds_home(r: Writer, home: u64) -> bool
    ensures { result ≡ holds_home r home }
{
    if !base_state::holds(r) {
        return false;
    }
    r.home == home
}

// Copies the block that a writer holds.
fn show_held(block: &mut [u8], state: &[u8], w: usize)
    requires { (length block.old ≡ 64) × (length state.now ≡ 1024) × (w < 8) }
    ensures { block.new ≡ held_of state.now w }
{
    base_areas::copy_block(block, 0, state, 320 + 64 * w)
}

// Copies the block of a home that a writer sees.
pub fn show(
    log: &[u8],
    area: &[u8],
    state: &[u8],
    newest: &[u8],
    block: &mut [u8],
    writer: u64,
    home: u64,
)
    requires { Usable log.now area.now state.now × (length block.old ≡ 64)
        × (length newest.now ≡ 8 * home_count (length area.now)) × (writer < 8) × (home < home_count (length area.now)) }
    ensures { block.new
        ≡ read_block (lent_all log.now area.now state.now newest.now
        block.old [] writer home) }
{
    let st = base_state::state(state);
    let w = writer as usize;
    let r = base_state::writer(state, w);
    if holds_home(r, home) {
        show_held(block, state, w);
        return;
    }
    let entry = seen(log, state, newest, st, r, home);
    if entry == 0 {
        base_areas::get_home(block, area, home as usize);
        return;
    }
    log_shown::show_entry(block, log, st.groups, entry - 1)
}
