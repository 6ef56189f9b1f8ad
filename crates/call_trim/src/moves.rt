// What a trim that moves the start writes: its batch, the header in the log copy, and the strip.
ghost use Rattle.std.specs.Prelude.{◌≡◌, [], ◌∷◌, ◌*◌, ◌^◌, ◌≤◌, ◌<◌, length};
ghost use Rattle.model.specs.Bytes.{puts};
ghost use Rattle.model.specs.Layout.{header};
ghost use Rattle.model.specs.Newest.{forget, carry_listed};
ghost use Rattle.model.specs.Batch.{KW, FN, batch_bytes};
ghost use Rattle.call_trim.specs.Moved.{kept_last, moved_state};

use model::State;

// The last closing entry that is left in a log from a start on, 0 for none.
fn kept_last(last: u64, start: u64) -> u64
    requires { start ≤ 2 ^ 47 }
    ensures { result ≡ kept_last last start }
{
    if last <= 7 * start { 0 } else { last }
}

// Puts the new start, the fenced position and the last closing entry into the strip.
fn move_state(state: &mut [u8], st: State, start: u64)
    requires { (length state.old ≡ 1024) × (start ≤ 2 ^ 47) × (7 * st.next < 2 ^ 64) }
    ensures { state.new ≡ moved_state state.old st start }
{
    base_state::set_start(state, start);
    base_state::set_fenced(state, 7 * st.next);
    let last = kept_last(st.last, start);
    base_state::set_last(state, last);
}

// Writes the new header and a fence into the batch.
fn write_header(batch: &mut [u8], groups: u64, homes: u64, start: u64)
    requires { 68 ≤ length batch.old }
    ensures { batch.new ≡ puts batch.old 0 (batch_bytes (KW (header start groups homes) ∷ FN ∷ [])) }
{
    let at = base_batch::header_write(batch, 0, start, groups, homes);
    base_batch::fence(batch, at);
}

// Moves the start: the batch, the header in the log copy, the strip, and the newest positions, with those of the list of rights carried over.
pub fn move_start(
    log: &mut [u8],
    state: &mut [u8],
    newest: &mut [u8],
    batch: &mut [u8],
    st: State,
    start: u64,
)
    requires { (64 ≤ length log.old) × (length state.old ≡ 1024) × (length newest.old ≡ 8 * st.homes) × (68 ≤ length batch.old)
        × (start ≤ 2 ^ 47) × (7 * st.next < 2 ^ 64) }
    ensures { (log.new ≡ puts log.old 0 (header start st.groups st.homes))
        × (state.new ≡ carry_listed st.homes newest.new (moved_state state.old st start))
        × (newest.new ≡ forget newest.old (7 * start) st.homes)
        × (batch.new ≡ puts batch.old 0 (batch_bytes (KW (header start st.groups st.homes) ∷ FN ∷ []))) }
{
    write_header(batch, st.groups, st.homes, start);
    base_areas::put_header(log, 0, start, st.groups, st.homes);
    move_state(state, st, start);
    log_newest::forget(newest, 7 * start, st.homes as usize);
    base_state::carry_listed(state, newest, st.homes);
}
