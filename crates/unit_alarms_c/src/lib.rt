// The calls on alarms for C: those of crates/unit_alarms with their contracts.
#![tactic(auto)]

ghost use Rattle.std.specs.Prelude.{◌≡◌, []};
ghost use Rattle.unit_shared.specs.Unit.{lent_to, leaves};
ghost use Rattle.unit_alarms_list.specs.Alarm.{alarm};
ghost use Rattle.unit_alarms.specs.Calls.{arrive_call, clear_call, tells, gravest_call};

use call_ask::Reply;
use unit_alarms::Gravest;

// An alarm arrives; the figure is the ticket of its commit.
#[unsafe(no_mangle)]
pub extern "C" fn kagutin_alarm_arrive(
    log: &mut [u8],
    area: &[u8],
    state: &mut [u8],
    newest: &mut [u8],
    batch: &mut [u8],
    writer: u64,
    identity: u16,
    class: u64,
    second: u32,
) -> Reply
    ensures { leaves result.code result.figure result.size log.new area.now state.new newest.new
        batch.new
        ≡ arrive_call (lent_to log.old area.now state.old newest.old batch.old) writer
        (alarm identity class second) }
{
    unit_alarms::kagutin_alarm_arrive(
        log, area, state, newest, batch, writer, identity, class, second,
    )
}

// An alarm clears; the figure is the ticket of its commit.
#[unsafe(no_mangle)]
pub extern "C" fn kagutin_alarm_clear(
    log: &mut [u8],
    area: &[u8],
    state: &mut [u8],
    newest: &mut [u8],
    batch: &mut [u8],
    writer: u64,
    identity: u16,
) -> Reply
    ensures { leaves result.code result.figure result.size log.new area.now state.new newest.new
        batch.new
        ≡ clear_call (lent_to log.old area.now state.old newest.old
        batch.old) writer identity }
{
    unit_alarms::kagutin_alarm_clear(log, area, state, newest, batch, writer, identity)
}

// The gravest open alarm, as it is kept in the first home.
#[unsafe(no_mangle)]
pub extern "C" fn kagutin_alarm_gravest(
    log: &[u8],
    area: &[u8],
    state: &[u8],
    newest: &[u8],
    writer: u64,
) -> Gravest
    ensures { tells result.code result.identity result.alarm_class result.second
        ≡ gravest_call (lent_to log.now area.now state.now newest.now []) writer }
{
    unit_alarms::kagutin_alarm_gravest(log, area, state, newest, writer)
}
