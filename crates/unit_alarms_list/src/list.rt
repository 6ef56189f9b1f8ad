// The open alarms in 384 bytes: how many, where one stands, which is the gravest, and the bytes of a new list.
ghost use Rattle.std.specs.Prelude.{◌≡◌, ◌+◌, ◌-◌, ◌*◌, ◌≤◌, ◌<◌, [], ◌∷◌, ◌++◌, length};
ghost use Rattle.model.specs.Bytes.{part, puts, zeros};
ghost use Rattle.unit_alarms_list.specs.Alarm.{InRange};
ghost use Rattle.unit_alarms_list.specs.OpenAlarms.{place, gravest, told, alarms_from, number_open, sealed, packed};

use crate::Alarm;
use crate::fields::{alarm_at, graver, put_alarm};

// How many are open.
pub fn open_count(s: &[u8]) -> usize
    requires { length s.now ≡ 384 }
    ensures { (result ≡ number_open s.now) × (result ≤ 48) }
{
    let n = base_codec::number(s, 0, 1);
    if n <= 48 { n as usize } else { 48 }
}

// The place of the first alarm of that identity, or `n` if none of the `n` has it.
pub fn find(s: &[u8], n: usize, identity: u64) -> usize
    requires { (length s.now ≡ 384) × (n ≤ 48) }
    ensures { result ≡ place identity (alarms_from s.now n 8) }
{
    let mut i: usize = 0;
    let mut at: usize = 8;
    while i < n {
        if base_codec::number(s, at, 2) == identity {
            return i;
        }
        i += 1;
        at += 7;
    }
    n
}

// The gravest of the `n` alarms, three zeros if there is none.
fn gravest_of(s: &[u8], n: usize) -> Alarm
    requires { (length s.now ≡ 384) × (n ≤ 48) }
    ensures { result ≡ told (gravest (alarms_from s.now n 8)) }
{
    if n == 0 {
        return Alarm {
            identity: 0,
            class: 0,
            second: 0,
        };
    }
    let mut best = alarm_at(s, 8);
    let mut i: usize = 1;
    let mut at: usize = 15;
    while i < n {
        let next = alarm_at(s, at);
        best = graver(best, next);
        i += 1;
        at += 7;
    }
    best
}

// Writes `n` bytes of `src` from index `from` on into `dst` from index `at` on.
fn keep(dst: &mut [u8], at: usize, src: &[u8], from: usize, n: usize)
    requires { (at + n ≤ length dst.old) × (from + n ≤ length src.now) }
    ensures { dst.new ≡ puts dst.old at (part src.now from n) }
{
    base_codec::copy(dst, at, &src[from..from + n])
}

// Puts the number and the gravest in front of the `n` alarms of `s`.
fn seal(s: &mut [u8], n: usize)
    requires { (length s.old ≡ 384) × (n ≤ 48) }
    ensures { s.new ≡ sealed s.old n (told (gravest (alarms_from s.old n 8))) }
{
    let g = gravest_of(s, n);
    base_codec::put_number(s, 0, 1, n as u64);
    put_alarm(s, 1, g);
}

// Makes `output` the bytes of the `n` alarms of `s` and one more behind them.
pub fn with_one(output: &mut [u8], s: &[u8], n: usize, a: Alarm)
    requires { (length output.old ≡ 384) × (length s.now ≡ 384) × (n < 48) × InRange a }
    ensures { output.new ≡ packed (alarms_from s.now n 8 ++ (a ∷ [])) }
{
    base_codec::clear(output, 0, 384);
    keep(output, 8, s, 8, 7 * n);
    put_alarm(output, 8 + 7 * n, a);
    seal(output, n + 1);
}

// Makes `output` the bytes of the `n` alarms of `s` but the one at place `i`.
pub fn without_one(output: &mut [u8], s: &[u8], n: usize, i: usize)
    requires { (length output.old ≡ 384) × (length s.now ≡ 384) × (n ≤ 48) × (i < n) }
    ensures { output.new ≡ packed (alarms_from s.now i 8 ++ alarms_from s.now (n - 1 - i) (15 + 7 * i)) }
{
    base_codec::clear(output, 0, 384);
    keep(output, 8, s, 8, 7 * i);
    keep(output, 8 + 7 * i, s, 15 + 7 * i, 7 * (n - 1 - i));
    seal(output, n - 1);
}
