// Open: the committed transactions of the log come back, and the log is then empty from a new start on.
ghost use Rattle.std.specs.Prelude.{◌≡◌, [], ◌+◌, ◌*◌, ◌^◌, ◌≤◌, ◌<◌, length};
ghost use Rattle.model.specs.Bytes.{puts};
ghost use Rattle.model.specs.Layout.{group_count, home_count, header_start, empty_log};
ghost use Rattle.model.specs.Batch.{batch_bytes};
ghost use Rattle.model.specs.Newest.{nothing_kept};
ghost use Rattle.model.specs.Rights.{open_sign};
ghost use Rattle.model.specs.State.{fresh_state};
ghost use Rattle.model.specs.Calls.{open_call};
ghost use Rattle.call_ask.specs.Lent.{lent_all, leaves_everything};
ghost use Rattle.call_open.specs.Opens.{ask_open, emptied};

use base_codec::MAX_START;
use call_ask::Reply;

// The numbers of groups and homes by the lengths, and the start that the header holds.
#[derive(Drop)]
pub struct Shape {
    pub groups: u64,
    pub homes: u64,
    pub start: u64,
}

// Reads the shape of a log copy and a data copy.
fn measure(log: &[u8], area: &[u8]) -> Shape
    requires { 64 ≤ length log.now }
    ensures { (result.groups ≡ group_count (length log.now)) × (result.homes ≡ home_count (length area.now))
        × (result.start ≡ header_start log.now) × (result.start < 2 ^ 48) }
{
    let groups = base_areas::log_groups(log.len());
    let homes = base_areas::data_homes(area.len());
    let start = base_areas::header_start(log);
    Shape {
        groups,
        homes,
        start,
    }
}

// The questions of open but the last: 0, or the number of the refusal.
fn open_answer(log: &[u8], area: &[u8], state: &[u8], newest: &[u8]) -> u64
    ensures { result ≡ ask_open (lent_all log.now area.now state.now newest.now [] [] 0 0) 0 }
{
    if !call_ask::lengths_right(log, area, state) {
        return 1;
    }
    let shape = measure(log, area);
    if newest.len() as u64 != 8 * shape.homes {
        return 1;
    }
    if !base_areas::header_right(log, shape.groups, shape.homes) {
        return 3;
    }
    if shape.start > MAX_START {
        return 3;
    }
    if shape.start + shape.groups > MAX_START {
        return 10;
    }
    0
}

// Writes a fence, the header with a new start, another fence, all groups as unused, and a last fence at an index of the batch.
fn open_records(batch: &mut [u8], at: usize, start: u64, groups: u64, homes: u64)
    requires { (at + (72 + 516 * groups) ≤ length batch.old) × (0 < groups) }
    ensures { batch.new ≡ puts batch.old at (batch_bytes (emptied start groups homes)) }
{
    let mut next = base_batch::fence(batch, at);
    next = base_batch::header_write(batch, next, start, groups, homes);
    next = base_batch::fence(batch, next);
    next = base_batch::all_groups(batch, next, start, groups);
    base_batch::fence(batch, next);
}

// The sign of the list of rights in the data copy.
fn open_sign(area: &[u8], homes: u64) -> u64
    requires { length area.now ≡ 64 * homes }
    ensures { result ≡ open_sign homes area.now }
{
    if homes < 12 {
        return 0;
    }
    if base_codec::all_zero(area, 512, 256) {
        return 1;
    }
    2
}

// Makes the log copy empty from a new start on, the strip that of an empty log, and keeps no position.
fn open_copies(
    log: &mut [u8],
    area: &[u8],
    state: &mut [u8],
    newest: &mut [u8],
    groups: u64,
    homes: u64,
    start: u64,
)
    requires { (length log.old ≡ 64 + 512 * groups) × (0 < groups) × (length state.old ≡ 1024) × (length newest.old ≡ 8 * homes)
        × (length area.now ≡ 64 * homes) × (7 * start < 2 ^ 64) }
    ensures { (log.new ≡ empty_log start groups homes)
        × (state.new ≡ fresh_state groups homes start (open_sign homes area.now))
        × (newest.new ≡ nothing_kept homes) }
{
    base_areas::put_empty_log(log, start, groups, homes);
    base_state::fresh(state, groups, homes, start, open_sign(area, homes));
    log_newest::keep_nothing(newest, homes as usize);
}

// Brings the committed transactions back, and empties the log; returns how many they are.
pub fn reopen(
    log: &mut [u8],
    area: &mut [u8],
    state: &mut [u8],
    newest: &mut [u8],
    batch: &mut [u8],
) -> Reply
    ensures { leaves_everything result.code result.figure result.size log.new area.new state.new
        newest.new [] batch.new
        ≡ open_call (lent_all log.old area.old state.old newest.old []
        batch.old 0 0) }
{
    let code = open_answer(log, area, state, newest);
    if code != 0 {
        return call_ask::refused(code);
    }
    let shape = measure(log, area);
    let groups = shape.groups;
    let homes = shape.homes;
    let start = shape.start;
    let more = 72 + 516 * groups;
    let replay = log_tables::bring_back(log, area, batch, groups, homes, start, 7 * groups, more);
    let size = replay.size;
    if (batch.len() as u64) < size {
        return call_ask::refused(9);
    }
    open_records(batch, (size - more) as usize, start + groups, groups, homes);
    open_copies(log, area, state, newest, groups, homes, start + groups);
    call_ask::done(replay.number, size)
}
