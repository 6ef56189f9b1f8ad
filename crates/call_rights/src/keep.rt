// What a commit keeps of the list of rights in the state strip: the positions of its homes, and where they have changed its sign.
ghost use Rattle.std.specs.Prelude.{◌≡◌, [], ◌+◌, ◌≤◌, ◌<◌, eqb, length};
ghost use Rattle.model.specs.State.{state_of, listed_of, set_list_sign};
ghost use Rattle.model.specs.Newest.{kept_for};
ghost use Rattle.model.specs.Rights.{same_listed, sign_for, keep_list};
ghost use Rattle.call_ask.specs.Lent.{lent_all};
ghost use Rattle.call_rights.specs.Listed.{Listed, Left, blocks_by};

use crate::list::all_zeros;

// Whether the strip has what the newest positions have for the list's home 8 + `i`.
fn same_at(state: &[u8], newest: &[u8], i: usize) -> bool
    requires { (length state.now ≡ 1024) × (96 ≤ length newest.now) × (i < 4) }
    ensures { result ≡ eqb (listed_of state.now i) (kept_for newest.now (8 + i)) }
{
    base_codec::number(state, 896 + 8 * i, 8) == base_codec::number(newest, 64 + 8 * i, 8)
}

// The same for all four.
fn same_listed(state: &[u8], newest: &[u8]) -> bool
    requires { (length state.now ≡ 1024) × (96 ≤ length newest.now) }
    ensures { result ≡ same_listed (lent_all [] [] state.now newest.now [] [] 0 0) 4 }
{
    if !same_at(state, newest, 0) {
        return false;
    }
    if !same_at(state, newest, 1) {
        return false;
    }
    if !same_at(state, newest, 2) {
        return false;
    }
    same_at(state, newest, 3)
}

// Sets the sign of the list that the newest positions show.
fn sign_list(log: &[u8], area: &[u8], state: &mut [u8], newest: &[u8])
    requires { Listed log.now area.now (state_of state.old) newest.now 64 × (length state.old ≡ 1024)
        × (12 ≤ (state_of state.old).homes) }
    ensures { state.new
        ≡ set_list_sign state.old (sign_for
        (blocks_by log.now area.now (state_of state.old) newest.now 64 4)) }
{
    if all_zeros(log, area, state, newest, 64) {
        base_state::set_list_sign(state, 1);
        return;
    }
    base_state::set_list_sign(state, 2);
}

// Keeps the list's part of the strip after a commit that has left log, strip and newest positions.
pub fn keep_list(log: &[u8], area: &[u8], state: &mut [u8], newest: &[u8])
    requires { Left log.now area.now state.old newest.now }
    ensures { state.new
        ≡ keep_list (lent_all log.now area.now state.old newest.now [] [] 0 0) }
{
    let homes = area.len() / 64;
    if homes < 12 {
        return;
    }
    let stays = same_listed(state, newest);
    base_state::carry_listed(state, newest, homes as u64);
    if stays {
        return;
    }
    sign_list(log, area, state, newest);
}
