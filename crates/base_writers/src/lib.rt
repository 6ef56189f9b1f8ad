// The record of one writer changed at its place in the state strip; the other seven records and all other bytes stay as they were.
#![tactic(auto)]

mod places;
mod records;

ghost use Rattle.std.specs.Prelude.{◌≡◌, ◌+◌, ◌^◌, ◌<◌, length};
ghost use Rattle.model.specs.State.{set_writer, idle, begun, count_for};
ghost use Rattle.base_writers.specs.Held.{held_for};

use model::Writer;
use places::{aborted, begun, held};

// Begins a transaction in the record of writer `w`.
pub fn begin(s: &mut [u8], w: usize)
    requires { (length s.old ≡ 1024) × (w < 8) }
    ensures { s.new ≡ set_writer s.old w begun }
{
    let r = base_state::writer(s, w);
    base_state::set_writer(s, w, begun(r));
}

// Stores what becomes of `r`, the record of writer `w`, once it holds a block for `home`; a block that it held for another home is logged
// at `position`.
pub fn hold(s: &mut [u8], w: usize, r: Writer, home: u64, position: u64)
    requires { (length s.old ≡ 1024) × (w < 8) × (count_for r + 1 < 2 ^ 64) }
    ensures { s.new ≡ set_writer s.old w (held_for r home position) }
{
    base_state::set_writer(s, w, held(r, home, position));
}

// Ends the transaction in the record of writer `w`.
pub fn abort(s: &mut [u8], w: usize)
    requires { (length s.old ≡ 1024) × (w < 8) }
    ensures { s.new ≡ set_writer s.old w idle }
{
    let r = base_state::writer(s, w);
    base_state::set_writer(s, w, aborted(r));
}
