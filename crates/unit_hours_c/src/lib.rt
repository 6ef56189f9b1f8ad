// The calls of the pump hours book for C: those of crates/unit_hours with their contracts.
#![tactic(auto)]

ghost use Rattle.std.specs.Prelude.{◌≡◌, []};
ghost use Rattle.unit_shared.specs.Unit.{lent_to, leaves};
ghost use Rattle.unit_hours_book.specs.Events.{start_at, stop_at};
ghost use Rattle.unit_hours.specs.Calls.{event_call, hours_call, services_call};

use call_ask::Reply;
use unit_hours::{Hours, Services};

// A start of a pump at a second; the figure is the ticket of its commit.
#[unsafe(no_mangle)]
pub extern "C" fn kagutin_pump_start(
    log: &mut [u8],
    area: &[u8],
    state: &mut [u8],
    newest: &mut [u8],
    batch: &mut [u8],
    writer: u64,
    pump: u64,
    second: u32,
) -> Reply
    ensures { leaves result.code result.figure result.size log.new area.now state.new newest.new
        batch.new
        ≡ event_call (lent_to log.old area.now state.old newest.old
        batch.old) writer pump
        (start_at second) }
{
    unit_hours::kagutin_pump_start(log, area, state, newest, batch, writer, pump, second)
}

// A stop of a pump at a second, answered as a start is.
#[unsafe(no_mangle)]
pub extern "C" fn kagutin_pump_stop(
    log: &mut [u8],
    area: &[u8],
    state: &mut [u8],
    newest: &mut [u8],
    batch: &mut [u8],
    writer: u64,
    pump: u64,
    second: u32,
) -> Reply
    ensures { leaves result.code result.figure result.size log.new area.now state.new newest.new
        batch.new
        ≡ event_call (lent_to log.old area.now state.old newest.old
        batch.old) writer pump
        (stop_at second) }
{
    unit_hours::kagutin_pump_stop(log, area, state, newest, batch, writer, pump, second)
}

// Starts of a pump and the seconds of its finished runs.
#[unsafe(no_mangle)]
pub extern "C" fn kagutin_pump_hours(
    log: &[u8],
    area: &[u8],
    state: &[u8],
    newest: &[u8],
    writer: u64,
    pump: u64,
) -> Hours
    ensures { result ≡ hours_call (lent_to log.now area.now state.now newest.now []) writer pump }
{
    unit_hours::kagutin_pump_hours(log, area, state, newest, writer, pump)
}

// Whole services due of a pump, one each `interval` seconds of finished runs, and the seconds left over.
#[unsafe(no_mangle)]
pub extern "C" fn kagutin_pump_services(
    log: &[u8],
    area: &[u8],
    state: &[u8],
    newest: &[u8],
    writer: u64,
    pump: u64,
    interval: u64,
) -> Services
    ensures { result ≡ services_call (lent_to log.now area.now state.now
        newest.now []) writer pump interval }
{
    unit_hours::kagutin_pump_services(log, area, state, newest, writer, pump, interval)
}
