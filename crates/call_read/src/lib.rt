// The call read: the newest value of a home that a writer sees.
#![tactic(auto)]

mod blocks;
mod newest;

ghost use Rattle.std.specs.Prelude.{◌≡◌, []};
ghost use Rattle.model.specs.Questions.{read_answer};
ghost use Rattle.model.specs.Calls.{read_call};
ghost use Rattle.call_ask.specs.Lent.{lent_all, leaves_everything};

pub use blocks::show;
use call_ask::Reply;

// The questions of a read: 0 if none refuses it, else the number of the refusal.
fn read_answer(
    log: &[u8],
    area: &[u8],
    state: &[u8],
    newest: &[u8],
    block: &[u8],
    writer: u64,
    home: u64,
) -> u64
    ensures { result ≡ read_answer (lent_all log.now area.now state.now newest.now
        block.now [] writer home) }
{
    let code = call_ask::both_answer(log, area, state, newest, block);
    if code != 0 {
        return code;
    }
    if writer >= 8 {
        return 4;
    }
    if home >= base_areas::data_homes(area.len()) {
        return 5;
    }
    if !call_rights::may_read(log, area, state, newest, writer, home) {
        return 20;
    }
    0
}

// Reads the block of a home as a writer sees it: the held one, else its newest own entry, else that at the
// position kept for the home, else the data copy.
pub fn read(
    log: &[u8],
    area: &[u8],
    state: &[u8],
    newest: &[u8],
    block: &mut [u8],
    writer: u64,
    home: u64,
) -> Reply
    ensures { leaves_everything result.code result.figure result.size log.now area.now state.now
        newest.now block.new []
        ≡ read_call (lent_all log.now area.now state.now newest.now block.old [] writer home) }
{
    let code = read_answer(log, area, state, newest, block, writer, home);
    if code != 0 {
        return call_ask::refused(code);
    }
    show(log, area, state, newest, block, writer, home);
    call_ask::done(0, 0)
}
