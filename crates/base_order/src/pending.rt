// Question 2's tests of what a strip mostly has not: a round under way, and places promised.
ghost use Rattle.std.specs.Prelude.{◌≡◌, ◌&&◌, ◌+◌, ◌^◌, ◌≤◌, ◌<◌, leb, length};
ghost use Rattle.model.specs.State.{state_of, places};
ghost use Rattle.base_state.specs.Order.{GroupsInOrder, round_in_order};
ghost use Rattle.base_order.specs.Asked.{asked, asked_all};

use base_state::{places, promise, state};
use model::State;

// Whether the position that a round has fixed lies from the settled to the fenced one, or there is no round.
fn round_in_order(st: State) -> bool
    ensures { result ≡ round_in_order st }
{
    if st.round == 0 {
        return true;
    }
    if st.round <= st.settled {
        return false;
    }
    st.round - 1 <= st.fenced
}

// How many places the promise to writer `w` asks for, and more than any log has if the writer is idle.
fn asked(s: &[u8], w: usize) -> u64
    requires { (length s.now ≡ 1024) × (w < 8) }
    ensures { (result ≡ asked s.now w) × (result < 2 ^ 16) }
{
    let n = promise(s, w);
    if n == 0 {
        return 0;
    }
    if base_codec::byte(s, 104 + w) == 0 {
        return 7169;
    }
    n
}

// The same of four writers from `from` on. Their promises are read as one word first: mostly there is none.
fn asked_of_four(s: &[u8], from: usize) -> u64
    requires { (length s.now ≡ 1024) × (from ≤ 4) }
    ensures { (asked_all s.now from + result ≡ asked_all s.now (from + 4)) × (result < 2 ^ 18) }
{
    if base_codec::number(s, 72 + 2 * from, 8) == 0 {
        return 0;
    }
    asked(s, from) + asked(s, from + 1) + asked(s, from + 2) + asked(s, from + 3)
}

// Whether the round is in order, and there are as many places as the promises ask for.
pub fn pending_in_order(s: &[u8]) -> bool
    requires { (length s.now ≡ 1024) × GroupsInOrder (state_of s.now) }
    ensures { result ≡ (round_in_order (state_of s.now) && leb (asked_all s.now 8) (places (state_of s.now))) }
{
    let st = state(s);
    if !round_in_order(st) {
        return false;
    }
    asked_of_four(s, 0) + asked_of_four(s, 4) <= places(st)
}
