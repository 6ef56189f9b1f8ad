// Pump hours book: starts and stops of pumps 0 to 7, their starts and run seconds, and the services due. It stands on the store's calls alone.
#![tactic(auto)]

ghost use Rattle.std.specs.Prelude.{◌≡◌, []};
ghost use Rattle.unit_shared.specs.Unit.{lent_to, leaves};
ghost use Rattle.unit_hours_book.specs.Events.{start_at, stop_at};
ghost use Rattle.unit_hours.specs.Calls.{event_call, hours_told, hours_call, services_told, services_call};

use call_ask::Reply;

// Pumps are numbered from 0, and the home of pump 0 is the first of theirs.
const LAST_PUMP: u64 = 7;

const HOMES: u64 = 16;

// Starts of a pump and the seconds of its finished runs; zeros with the number of a refusal.
#[repr(C)]
#[derive(Clone, Copy)]
pub struct Hours {
    pub code: u64,
    pub starts: u64,
    pub seconds: u64,
}

// Whole services due of a pump and the seconds left over; zeros with the number of a refusal.
#[repr(C)]
#[derive(Clone, Copy)]
pub struct Services {
    pub code: u64,
    pub due: u64,
    pub left: u64,
}

fn no_hours(code: u64) -> Hours
    ensures { result ≡ hours_told code 0 0 }
{
    Hours {
        code,
        starts: 0,
        seconds: 0,
    }
}

fn no_services(code: u64) -> Services
    ensures { result ≡ services_told code 0 0 }
{
    Services {
        code,
        due: 0,
        left: 0,
    }
}

// A start of a pump at a second; the figure is the ticket of its commit. [S-68]
#[unsafe(no_mangle)]
pub extern "C" fn kagutin_pump_start(
    log: &mut [u8],
    area: &[u8],
    state: &mut [u8],
    newest: &mut [u8],
    batch: &mut [u8],
    writer: u64,
    pump: u64,
    second: u32,
) -> Reply
    ensures { leaves result.code result.figure result.size log.new area.now state.new newest.new
        batch.new
        ≡ event_call (lent_to log.old area.now state.old newest.old
        batch.old) writer pump
        (start_at second) }
{
    if pump > LAST_PUMP {
        return call_ask::refused(14);
    }
    let mut block = [0; 64];
    let home = HOMES + pump;
    let read = kagutin::kagutin_revise(log, area, state, newest, &mut block, writer, home);
    if read.code != 0 {
        return call_ask::refused(read.code);
    }
    let code = unit_hours_book::start(&mut block, second);
    unit_shared::finish(log, area, state, newest, &block, batch, writer, home, code)
}

// A stop of a pump at a second, answered as a start is. [S-68]
#[unsafe(no_mangle)]
pub extern "C" fn kagutin_pump_stop(
    log: &mut [u8],
    area: &[u8],
    state: &mut [u8],
    newest: &mut [u8],
    batch: &mut [u8],
    writer: u64,
    pump: u64,
    second: u32,
) -> Reply
    ensures { leaves result.code result.figure result.size log.new area.now state.new newest.new
        batch.new
        ≡ event_call (lent_to log.old area.now state.old newest.old
        batch.old) writer pump
        (stop_at second) }
{
    if pump > LAST_PUMP {
        return call_ask::refused(14);
    }
    let mut block = [0; 64];
    let home = HOMES + pump;
    let read = kagutin::kagutin_revise(log, area, state, newest, &mut block, writer, home);
    if read.code != 0 {
        return call_ask::refused(read.code);
    }
    let code = unit_hours_book::stop(&mut block, second);
    unit_shared::finish(log, area, state, newest, &block, batch, writer, home, code)
}

// Starts of a pump and the seconds of its finished runs. [S-67]
#[unsafe(no_mangle)]
pub extern "C" fn kagutin_pump_hours(
    log: &[u8],
    area: &[u8],
    state: &[u8],
    newest: &[u8],
    writer: u64,
    pump: u64,
) -> Hours
    ensures { result ≡ hours_call (lent_to log.now area.now state.now newest.now []) writer pump }
{
    if pump > LAST_PUMP {
        return no_hours(14);
    }
    let mut block = [0; 64];
    let read = kagutin::kagutin_fetch(log, area, state, newest, &mut block, writer, HOMES + pump);
    if read.code != 0 {
        return no_hours(read.code);
    }
    let p = unit_hours_book::read(&block);
    Hours {
        code: 0,
        starts: p.starts,
        seconds: p.total,
    }
}

// Whole services due of a pump, one each `interval` seconds of finished runs, and the seconds left over. [S-67]
#[unsafe(no_mangle)]
pub extern "C" fn kagutin_pump_services(
    log: &[u8],
    area: &[u8],
    state: &[u8],
    newest: &[u8],
    writer: u64,
    pump: u64,
    interval: u64,
) -> Services
    ensures { result ≡ services_call (lent_to log.now area.now state.now
        newest.now []) writer pump interval }
{
    if interval == 0 {
        return no_services(14);
    }
    let hours = kagutin_pump_hours(log, area, state, newest, writer, pump);
    if hours.code != 0 {
        return no_services(hours.code);
    }
    let d = unit_hours_book::services(hours.seconds, interval);
    Services {
        code: 0,
        due: d.services,
        left: d.left,
    }
}
