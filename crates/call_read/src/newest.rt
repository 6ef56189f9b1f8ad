// The entry for a home that a read shows, as its position + 1, 0 for none: a writer's own newest one, else that at the kept position.
ghost use Rattle.std.specs.Prelude.{◌≡◌, ◌*◌, ◌^◌, ◌≤◌, ◌<◌, length};
ghost use Rattle.model.specs.State.{state_of, next_position};
ghost use Rattle.log_search.specs.Codes.{code_of};
ghost use Rattle.log_shown.specs.There.{Searchable};
ghost use Rattle.call_read.specs.Newest.{own_entry, entry_kept, seen_entry};

use model::{State, Writer};

// The newest entry for a home in a writer's open transaction.
fn own_entry(log: &[u8], st: State, r: Writer, home: u64) -> u64
    requires { Searchable log.now st × (3 ≤ r.mode → (7 * st.start ≤ r.first) × (r.first < next_position st)) × (home < 2 ^ 16) }
    ensures { result ≡ code_of (own_entry log.now st r home) }
{
    if !base_state::has_logged(r) {
        return 0;
    }
    let end = base_state::next_position(st);
    log_search::newest_own(log, st.groups, st.homes, st.start, r.first, end, home)
}

// The entry for a home at the position kept for it.
fn kept_entry(log: &[u8], state: &[u8], newest: &[u8], home: u64) -> u64
    requires { Searchable log.now (state_of state.now) × (length state.now ≡ 1024)
        × (length newest.now ≡ 8 * (state_of state.now).homes) × (home < (state_of state.now).homes) }
    ensures { result ≡ code_of (entry_kept log.now newest.now (state_of state.now) home) }
{
    let position = log_newest::kept(newest, home as usize);
    if log_shown::place(log, state, home, position) == 0 {
        return 0;
    }
    position + 1
}

// The entry for a home that a writer sees: its newest own one, else that at the kept position.
pub fn seen(log: &[u8], state: &[u8], newest: &[u8], st: State, r: Writer, home: u64) -> u64
    requires { Searchable log.now st × (st ≡ state_of state.now) × (length state.now ≡ 1024) × (length newest.now ≡ 8 * st.homes)
        × (3 ≤ r.mode → (7 * st.start ≤ r.first) × (r.first < next_position st)) × (home < st.homes) }
    ensures { result ≡ code_of (seen_entry log.now newest.now st r home) }
{
    let own = own_entry(log, st, r, home);
    if own != 0 {
        return own;
    }
    kept_entry(log, state, newest, home)
}
