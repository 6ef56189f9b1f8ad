// Who may touch what: the questions 19 and 20, by the list of rights as it is committed. Each asks the list's sign itself, so that no call
// stands between it and the look at the writer's own block.
#![tactic(auto)]

mod keep;
mod list;
mod ranges;
mod zeros;

ghost use Rattle.std.specs.Prelude.{◌≡◌, [], ◌*◌, ◌<◌, length};
ghost use Rattle.model.specs.Layout.{home_count};
ghost use Rattle.model.specs.State.{list_sign};
ghost use Rattle.model.specs.Rights.{right_to_store, read_list};
ghost use Rattle.model.specs.Questions.{store_allowed, read_allowed};
ghost use Rattle.call_ask.specs.Lent.{lent, lent_all};
ghost use Rattle.call_ask.proofs.AnswerLaws.{Usable};

pub use keep::keep_list;
use list::{open_listed, open_unsigned};
use ranges::of_list;

// Whether a writer may store to a home. The list is found by the positions of its homes in the state strip.
pub fn may_store(log: &[u8], area: &[u8], state: &[u8], writer: u64, home: u64) -> bool
    requires { Usable log.now area.now state.now × (writer < 8) }
    ensures { result ≡ store_allowed (lent log.now area.now state.now [] [] writer home) }
{
    if of_list(home) {
        return writer == 0;
    }
    if area.len() < 768 {
        return true;
    }
    let at = 32 * writer as usize;
    let sign = base_state::list_sign(state);
    if sign == 1 {
        return true;
    }
    if sign == 2 {
        return open_listed(log, area, state, state, 896, at, home);
    }
    open_unsigned(log, area, state, state, 896, at, home)
}

// Whether a writer may read a home. The list is found by the newest positions.
pub fn may_read(
    log: &[u8],
    area: &[u8],
    state: &[u8],
    newest: &[u8],
    writer: u64,
    home: u64,
) -> bool
    requires { Usable log.now area.now state.now × (writer < 8) × (length newest.now ≡ 8 * home_count (length area.now)) }
    ensures { result ≡ read_allowed (lent_all log.now area.now state.now newest.now [] [] writer home) }
{
    if of_list(home) {
        return true;
    }
    if area.len() < 768 {
        return true;
    }
    let at = 32 * writer as usize + 16;
    let sign = base_state::list_sign(state);
    if sign == 1 {
        return true;
    }
    if sign == 2 {
        return open_listed(log, area, state, newest, 64, at, home);
    }
    open_unsigned(log, area, state, newest, 64, at, home)
}

// Whether a writer may store to a home, for a call that is lent the newest positions: the list is found by those.
pub fn may_store_newest(
    log: &[u8],
    area: &[u8],
    state: &[u8],
    newest: &[u8],
    writer: u64,
    home: u64,
) -> bool
    requires { Usable log.now area.now state.now × (writer < 8) × (length newest.now ≡ 8 * home_count (length area.now)) }
    ensures { result ≡ right_to_store (list_sign state.now) (home_count (length area.now))
        (read_list (lent_all log.now area.now state.now
        newest.now [] [] writer home)) writer home }
{
    if of_list(home) {
        return writer == 0;
    }
    if area.len() < 768 {
        return true;
    }
    let at = 32 * writer as usize;
    let sign = base_state::list_sign(state);
    if sign == 1 {
        return true;
    }
    if sign == 2 {
        return open_listed(log, area, state, newest, 64, at, home);
    }
    open_unsigned(log, area, state, newest, 64, at, home)
}
