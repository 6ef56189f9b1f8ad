// One alarm: seven bytes, and which of two is the graver.
ghost use Rattle.std.specs.Prelude.{◌≡◌, ◌+◌, ◌≤◌, length};
ghost use Rattle.model.specs.Bytes.{puts};
ghost use Rattle.unit_alarms_list.specs.Alarm.{alarm_at, alarm_bytes, InRange, class_known, goes_before, graver};

use crate::Alarm;

// The alarm whose bytes begin at index `at`: one load of eight bytes.
pub fn alarm_at(s: &[u8], at: usize) -> Alarm
    requires { at + 8 ≤ length s.now }
    ensures { (result ≡ alarm_at s.now at) × InRange result }
{
    let w = base_codec::number(s, at, 8);
    Alarm {
        identity: w % 0x1_0000,
        class: w / 0x1_0000 % 0x100,
        second: w / 0x100_0000 % 0x1_0000_0000,
    }
}

// Writes an alarm's bytes from index `at` on.
pub fn put_alarm(s: &mut [u8], at: usize, a: Alarm)
    requires { at + 7 ≤ length s.old }
    ensures { s.new ≡ puts s.old at (alarm_bytes a) }
{
    base_codec::put_number(s, at, 2, a.identity);
    base_codec::put_number(s, at + 2, 1, a.class);
    base_codec::put_number(s, at + 3, 4, a.second);
}

// Whether a class is from 1 to 9.
pub fn class_known(class: u64) -> bool
    ensures { result ≡ class_known class }
{
    if class < 1 {
        return false;
    }
    class <= 9
}

// Whether `a` goes before `b`: by class, then second, then identity.
fn goes_before(a: Alarm, b: Alarm) -> bool
    ensures { result ≡ goes_before a b }
{
    if a.class != b.class {
        return a.class < b.class;
    }
    if a.second != b.second {
        return a.second < b.second;
    }
    a.identity < b.identity
}

pub fn graver(a: Alarm, b: Alarm) -> Alarm
    ensures { result ≡ graver a b }
{
    if goes_before(b, a) { b } else { a }
}
