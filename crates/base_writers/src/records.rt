// What begin, store and abort make of a writer's record, by value.
ghost use Rattle.std.specs.Prelude.{◌≡◌, ◌+◌, ◌^◌, ◌<◌};
ghost use Rattle.model.specs.State.{idle, begun, count_for};
ghost use Rattle.base_writers.specs.Held.{held_for};

use model::Writer;

// The record `r` once its writer has begun a transaction.
pub fn begin(r: Writer) -> Writer
    ensures { result ≡ begun }
{
    base_state::begun()
}

// The record `r` once its writer holds a block for `home`; a block that it held for another home was logged at `position`.
pub fn hold(r: Writer, home: u64, position: u64) -> Writer
    requires { count_for r + 1 < 2 ^ 64 }
    ensures { result ≡ held_for r home position }
{
    if !base_state::holds(r) {
        return base_state::holding(home);
    }
    if r.home == home {
        return r;
    }
    let first = base_state::first_for(r, position);
    base_state::logging(home, first, base_state::count_for(r) + 1)
}

// The record `r` once its writer's transaction is dropped.
pub fn abort(r: Writer) -> Writer
    ensures { result ≡ idle }
{
    base_state::idle()
}
