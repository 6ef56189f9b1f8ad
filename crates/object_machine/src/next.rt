// The next turn.
ghost use Rattle.std.specs.Prelude.{◌≡◌, ◌≤◌, length};
ghost use Rattle.model.specs.Layout.{group_count, home_count};
ghost use Rattle.model.specs.State.{state_of};
ghost use Rattle.call_ask.specs.Lent.{lent_all, leaves_everything};
ghost use Rattle.object_machine.specs.Moves.{chosen};
ghost use Rattle.object_machine.specs.Next.{lent_to, gone, hands_out_now, holder_for, makes, follows, onward, goes, leaves, under_way, next_call};

use crate::calls::{room_call, writers_call};
use crate::fields::{known, read_control, set_control};
use crate::moves::{chosen, follows};
use crate::turns::{BAD_BATCH, done, fails, handed};
use crate::{Control, Moved, Turn};
use call_ask::Reply;
use model::Holder;

// Hands out the record of the batch at the cursor.
fn hands_out(
    log: &[u8],
    area: &[u8],
    state: &[u8],
    newest: &[u8],
    block: &[u8],
    batch: &[u8],
    c: Control,
) -> Moved
    requires { length state.now ≡ 1024 }
    ensures { result ≡ hands_out_now (lent_to log.now area.now state.now newest.now
        block.now batch.now) c }
{
    if c.size > batch.len() as u64 {
        return fails(c, BAD_BATCH);
    }
    let size = c.size as usize;
    let groups = base_areas::log_groups(log.len());
    let homes = base_areas::data_homes(area.len());
    let next = base_state::next(state);
    let a = object_runner::kagutin_next_action(
        &batch[0..size],
        c.landing,
        groups,
        homes,
        next,
        c.at,
        c.headed,
        c.step,
    );
    handed(c, a)
}

// The holder, where it is asked for.
fn holder_for(state: &[u8], stage: u64, code: u64) -> Holder
    requires { length state.now ≡ 1024 }
    ensures { result ≡ holder_for stage code state.now }
{
    if (code == 0) & (stage <= 22) {
        return Holder {
            writer: 8,
            first: 0,
        };
    }
    call_usage::holder(state)
}

// Makes the call with a number.
fn makes(
    log: &mut [u8],
    area: &mut [u8],
    state: &mut [u8],
    newest: &mut [u8],
    block: &[u8],
    batch: &mut [u8],
    k: u64,
    writer: u64,
    home: u64,
    n: u64,
) -> Reply
    ensures { leaves_everything result.code result.figure result.size log.new area.new state.new
        newest.new block.now batch.new
        ≡ makes k (lent_all log.old area.old state.old newest.old
        block.now batch.old writer home) n }
{
    if ((1 <= k) & (k <= 6)) | (k == 12) {
        return writers_call(log, area, state, newest, block, batch, k, writer, home, n);
    }
    room_call(log, area, state, newest, block, batch, k, writer, home, n)
}

// The number of the call that the stage makes.
fn picks(area: &[u8], state: &[u8], c: Control) -> u64
    requires { length state.now ≡ 1024 }
    ensures { result ≡ chosen c (state_of state.now) (home_count (length area.now)) }
{
    let homes = base_areas::data_homes(area.len());
    chosen(c, base_state::state(state), homes)
}

// What follows the call; `log` and `area` are the bytes of the two areas.
fn ends(
    state: &[u8],
    c: Control,
    code: u64,
    figure: u64,
    size: u64,
    log: usize,
    area: usize,
) -> Moved
    requires { (length state.now ≡ 1024) × (group_count log ≤ 1024) }
    ensures { result ≡ follows c code figure size (group_count log) log area (state_of state.now)
        (holder_for c.stage code state.now) }
{
    let groups = base_areas::log_groups(log);
    let h = holder_for(state, c.stage, code);
    follows(
        c,
        code,
        figure,
        size,
        groups,
        log as u64,
        area as u64,
        base_state::state(state),
        h,
    )
}

// The batch has been carried out.
fn onward(
    log: &mut [u8],
    area: &mut [u8],
    state: &mut [u8],
    newest: &mut [u8],
    block: &[u8],
    batch: &mut [u8],
    c: Control,
) -> Moved
    requires { (length state.old ≡ 1024) × (group_count (length log.old) ≤ 1024) }
    ensures { gone result log.new area.new state.new newest.new batch.new
        ≡ onward (lent_to log.old area.old state.old newest.old
        block.now batch.old) c }
{
    let log_size = log.len();
    let area_size = area.len();
    let k = picks(area, state, c);
    let r = makes(
        log, area, state, newest, block, batch, k, c.writer, c.home, c.number,
    );
    ends(state, c, r.code, r.figure, r.size, log_size, area_size)
}

// A failure of the driver, the next record, or the next call.
fn goes(
    log: &mut [u8],
    area: &mut [u8],
    state: &mut [u8],
    newest: &mut [u8],
    block: &[u8],
    batch: &mut [u8],
    c: Control,
    res: u64,
) -> Moved
    requires { (length state.old ≡ 1024) × (group_count (length log.old) ≤ 1024) }
    ensures { gone result log.new area.new state.new newest.new batch.new
        ≡ goes (lent_to log.old area.old state.old newest.old
        block.now batch.old) c res }
{
    if res != 0 {
        return fails(c, res);
    }
    if c.at < c.size {
        return hands_out(log, area, state, newest, block, batch, c);
    }
    onward(log, area, state, newest, block, batch, c)
}

// Whether an operation is under way.
fn under_way(c: Control) -> bool
    ensures { result ≡ under_way c }
{
    known(c) & (1 <= c.stage)
}

// The next turn, with what the driver's function returned for the last one: 0 if it was done, or if there was nothing for the driver. A batch, the copies, the
// state and the newest positions are lent as the last turn left them; the block is a store's. 67: nothing is under way; 1: a length is wrong. [S-88]
#[unsafe(no_mangle)]
pub extern "C" fn kagutin_next(
    control: &mut [u8],
    log: &mut [u8],
    area: &mut [u8],
    state: &mut [u8],
    newest: &mut [u8],
    block: &[u8],
    batch: &mut [u8],
    res: u64,
) -> Turn
    ensures { leaves result control.new log.new area.new state.new newest.new
        batch.new
        ≡ next_call control.old (lent_to log.old area.old state.old
        newest.old block.now batch.old) res }
{
    if control.len() != 256 {
        return done(67, 0);
    }
    let c = read_control(control);
    if !under_way(c) {
        return done(67, 0);
    }
    if !call_ask::lengths_right(log, area, state) {
        return done(1, 0);
    }
    let m = goes(log, area, state, newest, block, batch, c, res);
    set_control(control, m.control);
    m.turn
}
