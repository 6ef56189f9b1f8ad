// The store object as a machine for C: the calls of crates/object_machine with their contracts.
#![tactic(auto)]

ghost use Rattle.std.specs.Prelude.{◌≡◌};
ghost use Rattle.object_machine.specs.Next.{asked, init_call, ask_call, maintain_stage, begin_turn, abort_turn, read_turn, lent_to, leaves, next_call};

use object_machine::Turn;

// Makes a control block of 256 bytes: a store that is closed. `landing` is what the medium keeps whole (0 words of 8 bytes, 1 blocks of 64), `room` who makes room in
// a full log (0 the operation that finds it full, 1 maintain alone), `lists` whether writer 0 may store to homes 8 to 11 (0: answered 68). 1: the length is wrong.
#[unsafe(no_mangle)]
pub extern "C" fn kagutin_machine(control: &mut [u8], landing: u64, room: u64, lists: u64) -> Turn
    ensures { asked result control.new ≡ init_call control.old landing room lists }
{
    object_machine::asks::kagutin_machine(control, landing, room, lists)
}

// Loads both areas and opens the store; the figure is how many commits were brought back. 66: another operation is under way.
#[unsafe(no_mangle)]
pub extern "C" fn kagutin_ask_open(control: &mut [u8]) -> Turn
    ensures { asked result control.new ≡ ask_call control.old 19 0 0 0 }
{
    object_machine::asks::kagutin_ask_open(control)
}

// Begins a transaction and promises it places; makes room for them.
#[unsafe(no_mangle)]
pub extern "C" fn kagutin_ask_reserve(control: &mut [u8], writer: u64, places: u64) -> Turn
    ensures { asked result control.new ≡ ask_call control.old 2 writer 0 places }
{
    object_machine::asks::kagutin_ask_reserve(control, writer, places)
}

// Stores the block that next is lent.
#[unsafe(no_mangle)]
pub extern "C" fn kagutin_ask_store(control: &mut [u8], writer: u64, home: u64) -> Turn
    ensures { asked result control.new ≡ ask_call control.old 3 writer home 0 }
{
    object_machine::asks::kagutin_ask_store(control, writer, home)
}

// Commits a writer's transaction; the figure is the ticket.
#[unsafe(no_mangle)]
pub extern "C" fn kagutin_ask_commit(control: &mut [u8], writer: u64) -> Turn
    ensures { asked result control.new ≡ ask_call control.old 4 writer 0 0 }
{
    object_machine::asks::kagutin_ask_commit(control, writer)
}

// Flush, fence, confirm; the figure is the durable mark.
#[unsafe(no_mangle)]
pub extern "C" fn kagutin_ask_sync(control: &mut [u8]) -> Turn
    ensures { asked result control.new ≡ ask_call control.old 5 0 0 0 }
{
    object_machine::asks::kagutin_ask_sync(control)
}

// Settles at most so many homes, 0 for no bound, and trims; the figure is 1 if there is more to do.
#[unsafe(no_mangle)]
pub extern "C" fn kagutin_ask_maintain(control: &mut [u8], most: u64) -> Turn
    ensures { asked result control.new ≡ ask_call control.old (maintain_stage most) 0 0 most }
{
    object_machine::asks::kagutin_ask_maintain(control, most)
}

// Begins a transaction, at once.
#[unsafe(no_mangle)]
pub extern "C" fn kagutin_ask_begin(
    control: &[u8],
    log: &[u8],
    area: &[u8],
    state: &mut [u8],
    writer: u64,
) -> Turn
    ensures { asked result state.new
        ≡ begin_turn control.now log.now area.now state.old writer }
{
    object_machine::asks::kagutin_ask_begin(control, log, area, state, writer)
}

// Drops a transaction, at once.
#[unsafe(no_mangle)]
pub extern "C" fn kagutin_ask_abort(
    control: &[u8],
    log: &[u8],
    area: &[u8],
    state: &mut [u8],
    writer: u64,
) -> Turn
    ensures { asked result state.new
        ≡ abort_turn control.now log.now area.now state.old writer }
{
    object_machine::asks::kagutin_ask_abort(control, log, area, state, writer)
}

// Reads a home as a writer sees it, at once.
#[unsafe(no_mangle)]
pub extern "C" fn kagutin_ask_read(
    control: &[u8],
    log: &[u8],
    area: &[u8],
    state: &[u8],
    newest: &[u8],
    block: &mut [u8],
    writer: u64,
    home: u64,
) -> Turn
    ensures { asked result block.new
        ≡ read_turn control.now log.now area.now state.now newest.now
        block.old writer home }
{
    object_machine::asks::kagutin_ask_read(control, log, area, state, newest, block, writer, home)
}

// The next turn, with what the driver's function returned for the last one: 0 if it was done, or if there was nothing for the driver. A batch, the copies, the
// state and the newest positions are lent as the last turn left them; the block is a store's. 67: nothing is under way; 1: a length is wrong.
#[unsafe(no_mangle)]
pub extern "C" fn kagutin_next(
    control: &mut [u8],
    log: &mut [u8],
    area: &mut [u8],
    state: &mut [u8],
    newest: &mut [u8],
    block: &[u8],
    batch: &mut [u8],
    res: u64,
) -> Turn
    ensures { leaves result control.new log.new area.new state.new newest.new
        batch.new
        ≡ next_call control.old (lent_to log.old area.old state.old
        newest.old block.now batch.old) res }
{
    object_machine::next::kagutin_next(control, log, area, state, newest, block, batch, res)
}
