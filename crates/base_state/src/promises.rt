// The places promised to the writers, two bytes each in the state strip, and the places that the log has.
ghost use Rattle.std.specs.Prelude.{◌≡◌, true, ℕ, ◌^◌, ◌<◌, length};
ghost use Rattle.model.specs.State.{state_of, promise_of, set_promise, promised, places, free_places, promise_left};
ghost use Rattle.model.specs.Questions.{room_for, may_promise, keeps_promises};
ghost use Rattle.base_state.specs.Order.{GroupsInOrder};

use crate::fields::next_position;
use model::State;

// How many places are promised to writer `w`.
pub fn promise(s: &[u8], w: usize) -> u64
    requires { (length s.now ≡ 1024) × (w < 8) }
    ensures { (result ≡ promise_of s.now w) × (result < 2 ^ 16) }
{
    base_codec::number(s, 72 + 2 * w, 2)
}

// How many places are promised to writer `w` once an entry of it has used one up.
pub fn promise_left(s: &[u8], w: usize) -> u64
    requires { (length s.now ≡ 1024) × (w < 8) }
    ensures { result ≡ promise_left s.now w }
{
    let n = promise(s, w);
    if n == 0 {
        return 0;
    }
    n - 1
}

// Stores `n` as the places promised to writer `w`, and leaves the rest of the strip as it was.
pub fn set_promise(s: &mut [u8], w: usize, n: u64)
    requires { (length s.old ≡ 1024) × (w < 8) }
    ensures { s.new ≡ set_promise s.old w n }
{
    base_codec::put_number(s, 72 + 2 * w, 2, n)
}

// Whether nothing is promised to any writer: the eight promises are zero as two words.
pub fn none_promised(s: &[u8]) -> bool
    requires { length s.now ≡ 1024 }
    ensures { result ≡ true → (w : ℕ) → w < 8 → promise_of s.now w ≡ 0 }
{
    if base_codec::number(s, 72, 8) != 0 {
        return false;
    }
    base_codec::number(s, 80, 8) == 0
}

// How many places are promised to the eight writers together, one after the other.
fn promised_each(s: &[u8]) -> u64
    requires { length s.now ≡ 1024 }
    ensures { result ≡ promised s.now 8 }
{
    let mut sum: u64 = 0;
    let mut w: usize = 0;
    while w < 8 {
        sum += promise(s, w);
        w += 1;
    }
    sum
}

// How many places are promised to the eight writers together, mostly none.
pub fn promised(s: &[u8]) -> u64
    requires { length s.now ≡ 1024 }
    ensures { result ≡ promised s.now 8 }
{
    if none_promised(s) {
        return 0;
    }
    promised_each(s)
}

// The places from the next position to the end of the last group that the log may have.
pub fn places(st: State) -> u64
    requires { GroupsInOrder st }
    ensures { result ≡ places st }
{
    7 * (st.start + st.groups) - next_position(st)
}

// The places that are promised to nobody.
fn free_places(s: &[u8], st: State) -> u64
    requires { (length s.now ≡ 1024) × GroupsInOrder st × (st ≡ state_of s.now) }
    ensures { result ≡ free_places s.now }
{
    let all = places(st);
    let taken = promised(s);
    if all < taken {
        return 0;
    }
    all - taken
}

// Whether an entry of writer `w` finds a place: one that is promised to it, or one that is promised to nobody.
pub fn room_for(s: &[u8], st: State, w: usize) -> bool
    requires { (length s.now ≡ 1024) × (w < 8) × GroupsInOrder st × (st ≡ state_of s.now) }
    ensures { result ≡ room_for s.now w }
{
    if none_promised(s) {
        return st.next < st.start + st.groups;
    }
    if promise(s, w) != 0 {
        return true;
    }
    promised_each(s) < places(st)
}

// Whether `n` places may be promised: at least one, and no more than are free.
pub fn may_promise(s: &[u8], st: State, n: u64) -> bool
    requires { (length s.now ≡ 1024) × GroupsInOrder st × (st ≡ state_of s.now) }
    ensures { result ≡ may_promise s.now n }
{
    if n == 0 {
        return false;
    }
    n <= free_places(s, st)
}

// Whether a flush leaves as many places as are promised.
pub fn keeps_promises(s: &[u8], st: State) -> bool
    requires { (length s.now ≡ 1024) × GroupsInOrder st × (st ≡ state_of s.now) }
    ensures { result ≡ keeps_promises s.now }
{
    if st.filled == 0 {
        return true;
    }
    promised(s) <= 7 * (st.start + st.groups) - 7 * (st.next + 1)
}
