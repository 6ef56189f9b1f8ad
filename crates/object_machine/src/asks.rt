// Operations asked for.
ghost use Rattle.std.specs.Prelude.{◌≡◌};
ghost use Rattle.object_machine.specs.Next.{asked, shut, ask_answer, condition_for, maintain_stage, ask_call, init_call, ready_turn, begin_turn, abort_turn, read_turn};

use crate::fields::{fresh, known, read_control, set_control, with_ask};
use crate::turns::{done, pass, refusal};
use crate::{Control, Turn};

// 0 for a store that is open, 64 for one that is closed, 65 for one whose driver has failed.
fn shut(c: Control) -> u64
    ensures { result ≡ shut c }
{
    if c.condition == 2 {
        return 0;
    }
    if c.condition == 1 {
        return 64;
    }
    65
}

// 0 for an operation that may begin.
fn ask_answer(c: Control, stage: u64) -> u64
    ensures { result ≡ ask_answer c stage }
{
    if !known(c) {
        return 67;
    }
    if c.stage != 0 {
        return 66;
    }
    if stage == 19 {
        return 0;
    }
    shut(c)
}

fn condition_for(stage: u64) -> u64
    ensures { result ≡ condition_for stage }
{
    if stage == 19 {
        return 1;
    }
    2
}

// Asks for the operation that begins with a stage.
fn ask(control: &mut [u8], stage: u64, writer: u64, home: u64, n: u64) -> Turn
    ensures { asked result control.new ≡ ask_call control.old stage writer home n }
{
    if control.len() != 256 {
        return done(67, 0);
    }
    let c = read_control(control);
    let code = ask_answer(c, stage);
    if code != 0 {
        return refusal(c, code);
    }
    set_control(
        control,
        with_ask(c, condition_for(stage), stage, writer, home, n),
    );
    pass()
}

// Makes a control block of 256 bytes: a store that is closed. `landing` is what the medium keeps whole (0 words of 8 bytes, 1 blocks of 64), `room` who makes room in
// a full log (0 the operation that finds it full, 1 maintain alone), `lists` whether writer 0 may store to homes 8 to 11 (0: answered 68). 1: the length is wrong. [S-88]
#[unsafe(no_mangle)]
pub extern "C" fn kagutin_machine(control: &mut [u8], landing: u64, room: u64, lists: u64) -> Turn
    ensures { asked result control.new ≡ init_call control.old landing room lists }
{
    if control.len() != 256 {
        return done(1, 0);
    }
    set_control(control, fresh(landing, room, lists));
    done(0, 0)
}

// Loads both areas and opens the store; the figure is how many commits were brought back. 66: another operation is under way. [S-88]
#[unsafe(no_mangle)]
pub extern "C" fn kagutin_ask_open(control: &mut [u8]) -> Turn
    ensures { asked result control.new ≡ ask_call control.old 19 0 0 0 }
{
    ask(control, 19, 0, 0, 0)
}

// Begins a transaction and promises it places; makes room for them. [S-88]
#[unsafe(no_mangle)]
pub extern "C" fn kagutin_ask_reserve(control: &mut [u8], writer: u64, places: u64) -> Turn
    ensures { asked result control.new ≡ ask_call control.old 2 writer 0 places }
{
    ask(control, 2, writer, 0, places)
}

// Stores the block that next is lent. [S-88]
#[unsafe(no_mangle)]
pub extern "C" fn kagutin_ask_store(control: &mut [u8], writer: u64, home: u64) -> Turn
    ensures { asked result control.new ≡ ask_call control.old 3 writer home 0 }
{
    ask(control, 3, writer, home, 0)
}

// Commits a writer's transaction; the figure is the ticket. [S-88]
#[unsafe(no_mangle)]
pub extern "C" fn kagutin_ask_commit(control: &mut [u8], writer: u64) -> Turn
    ensures { asked result control.new ≡ ask_call control.old 4 writer 0 0 }
{
    ask(control, 4, writer, 0, 0)
}

// Flush, fence, confirm; the figure is the durable mark. [S-88]
#[unsafe(no_mangle)]
pub extern "C" fn kagutin_ask_sync(control: &mut [u8]) -> Turn
    ensures { asked result control.new ≡ ask_call control.old 5 0 0 0 }
{
    ask(control, 5, 0, 0, 0)
}

fn maintain_stage(most: u64) -> u64
    ensures { result ≡ maintain_stage most }
{
    if most == 0 {
        return 13;
    }
    16
}

// Settles at most so many homes, 0 for no bound, and trims; the figure is 1 if there is more to do. [S-88]
#[unsafe(no_mangle)]
pub extern "C" fn kagutin_ask_maintain(control: &mut [u8], most: u64) -> Turn
    ensures { asked result control.new ≡ ask_call control.old (maintain_stage most) 0 0 most }
{
    ask(control, maintain_stage(most), 0, 0, most)
}

// Whether the store is open: an answer of 0, or the refusal.
fn ready(control: &[u8]) -> Turn
    ensures { result ≡ ready_turn control.now }
{
    if control.len() != 256 {
        return done(67, 0);
    }
    let c = read_control(control);
    if !known(c) {
        return done(67, 0);
    }
    refusal(c, shut(c))
}

// Begins a transaction, at once. [S-88]
#[unsafe(no_mangle)]
pub extern "C" fn kagutin_ask_begin(
    control: &[u8],
    log: &[u8],
    area: &[u8],
    state: &mut [u8],
    writer: u64,
) -> Turn
    ensures { asked result state.new
        ≡ begin_turn control.now log.now area.now state.old writer }
{
    let t = ready(control);
    if t.code != 0 {
        return t;
    }
    let r = kagutin::kagutin_begin(log, area, state, writer);
    done(r.code, r.figure)
}

// Drops a transaction, at once. [S-88]
#[unsafe(no_mangle)]
pub extern "C" fn kagutin_ask_abort(
    control: &[u8],
    log: &[u8],
    area: &[u8],
    state: &mut [u8],
    writer: u64,
) -> Turn
    ensures { asked result state.new
        ≡ abort_turn control.now log.now area.now state.old writer }
{
    let t = ready(control);
    if t.code != 0 {
        return t;
    }
    let r = kagutin::kagutin_abort(log, area, state, writer);
    done(r.code, r.figure)
}

// Reads a home as a writer sees it, at once. [S-88]
#[unsafe(no_mangle)]
pub extern "C" fn kagutin_ask_read(
    control: &[u8],
    log: &[u8],
    area: &[u8],
    state: &[u8],
    newest: &[u8],
    block: &mut [u8],
    writer: u64,
    home: u64,
) -> Turn
    ensures { asked result block.new
        ≡ read_turn control.now log.now area.now state.now newest.now
        block.old writer home }
{
    let t = ready(control);
    if t.code != 0 {
        return t;
    }
    let r = kagutin::kagutin_read(log, area, state, newest, block, writer, home);
    done(r.code, r.figure)
}
