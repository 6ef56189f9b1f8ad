// The highest start that no open transaction lies across.
ghost use Rattle.std.specs.Prelude.{◌≡◌, ◌*◌, ◌<◌, length};
ghost use Rattle.model.specs.State.{writer_of};
ghost use Rattle.model.specs.Effects.{none_open_before};
ghost use Rattle.log_limits.specs.Limits.{Highest, writer_limit};

// A limit lowered to the group in which a writer's open transaction begins, if it has logged entries.
fn writer_limit(state: &[u8], w: u64, limit: u64) -> u64
    requires { (length state.now ≡ 1024) × (w < 8) }
    ensures { result ≡ writer_limit (writer_of state.now w) limit }
{
    if base_codec::byte(state, (104 + w) as usize) < 3 {
        return limit;
    }
    let at = (128 + 24 * w) as usize;
    let group = base_codec::number(state, at + 8, 8) / 7;
    if group < limit {
        return group;
    }
    limit
}

// The highest start up to `limit` with no entry of an open transaction before it.
pub fn open_limit(state: &[u8], limit: u64) -> u64
    requires { length state.now ≡ 1024 }
    ensures { Highest (λ s. none_open_before (7 * s) state.now 8) limit result }
{
    let mut lowest = limit;
    let mut w = 0;
    while w < 8 {
        lowest = writer_limit(state, w, lowest);
        w += 1;
    }
    lowest
}
