// Alarms that come and clear: the list of open ones and the gravest of them, kept in six homes. It stands on the store's calls alone.
#![tactic(auto)]

ghost use Rattle.std.specs.Prelude.{◌≡◌, []};
ghost use Rattle.unit_shared.specs.Unit.{lent_to, leaves};
ghost use Rattle.unit_alarms_list.specs.Alarm.{alarm};
ghost use Rattle.unit_alarms.specs.Calls.{arrive_call, clear_call, tells, gravest_call};

use call_ask::Reply;

// The first of the six homes.
const HOME: u64 = 24;

// The gravest open alarm: 0 and the alarm, three zeros if none is open; or the number of the refusal and zeros.
#[repr(C)]
#[derive(Clone, Copy)]
pub struct Gravest {
    pub code: u64,
    pub identity: u64,
    pub alarm_class: u64,
    pub second: u64,
}

// An alarm arrives; the figure is the ticket of its commit. [S-70]
#[unsafe(no_mangle)]
pub extern "C" fn kagutin_alarm_arrive(
    log: &mut [u8],
    area: &[u8],
    state: &mut [u8],
    newest: &mut [u8],
    batch: &mut [u8],
    writer: u64,
    identity: u16,
    class: u64,
    second: u32,
) -> Reply
    ensures { leaves result.code result.figure result.size log.new area.now state.new newest.new
        batch.new
        ≡ arrive_call (lent_to log.old area.now state.old newest.old batch.old) writer
        (alarm identity class second) }
{
    if !unit_alarms_list::class_known(class) {
        return call_ask::refused(24);
    }
    let mut list = [0; 384];
    let mut grown = [0; 384];
    let read = kagutin::kagutin_revise(log, area, state, newest, &mut list, writer, HOME);
    if read.code != 0 {
        return call_ask::refused(read.code);
    }
    let code = unit_alarms_list::arrive(&list, &mut grown, identity, class, second);
    unit_shared::finish(log, area, state, newest, &grown, batch, writer, HOME, code)
}

// An alarm clears; the figure is the ticket of its commit. [S-70]
#[unsafe(no_mangle)]
pub extern "C" fn kagutin_alarm_clear(
    log: &mut [u8],
    area: &[u8],
    state: &mut [u8],
    newest: &mut [u8],
    batch: &mut [u8],
    writer: u64,
    identity: u16,
) -> Reply
    ensures { leaves result.code result.figure result.size log.new area.now state.new newest.new
        batch.new
        ≡ clear_call (lent_to log.old area.now state.old newest.old
        batch.old) writer identity }
{
    let mut list = [0; 384];
    let mut rest = [0; 384];
    let read = kagutin::kagutin_revise(log, area, state, newest, &mut list, writer, HOME);
    if read.code != 0 {
        return call_ask::refused(read.code);
    }
    let code = unit_alarms_list::clear(&list, &mut rest, identity);
    unit_shared::finish(log, area, state, newest, &rest, batch, writer, HOME, code)
}

// The gravest open alarm, as it is kept in the first home. [S-69]
#[unsafe(no_mangle)]
pub extern "C" fn kagutin_alarm_gravest(
    log: &[u8],
    area: &[u8],
    state: &[u8],
    newest: &[u8],
    writer: u64,
) -> Gravest
    ensures { tells result.code result.identity result.alarm_class result.second
        ≡ gravest_call (lent_to log.now area.now state.now newest.now []) writer }
{
    let mut block = [0; 64];
    let read = kagutin::kagutin_fetch(log, area, state, newest, &mut block, writer, HOME);
    if read.code != 0 {
        return Gravest {
            code: read.code,
            identity: 0,
            alarm_class: 0,
            second: 0,
        };
    }
    let a = unit_alarms_list::gravest(&block);
    Gravest {
        code: 0,
        identity: a.identity,
        alarm_class: a.class,
        second: a.second,
    }
}
