// A table's verdict. The lowest millimetre in no row is 0 or one past some row's end, so a walk from row to row finds it, and rows
// that rise without a gap need no walk. Rows without a gap that have no more millimetres than there are depths share none; the
// lowest that two share is the higher beginning of two that meet. Where only acceptance is asked, each row must have one that begins
// right past its end.
ghost use Rattle.std.specs.Prelude.{◌≡◌, ◌+◌, ◌%◌, ◌<◌, min, true, ◌&&◌, eqb, length};
ghost use Rattle.unit_bands_table.specs.Rows.{rows};
ghost use Rattle.unit_bands_table.specs.Judge.{verdict, all_fit, sound, uncovered, doubled, judgement};
ghost use Rattle.unit_bands_table.specs.Sweep.{rest, row_at, rising, width, common, shared};

use crate::rows::{DEPTHS, fit, holder, sized, sound, starter, two_bytes};

// The answer, 0, 11, 12 or 13, and the millimetre that 12 and 13 tell.
#[derive(Clone, Copy)]
pub struct Verdict {
    pub code: u64,
    pub millimetre: u64,
}

// Whether each row begins one past the row before it, the first at 0, and the last ends at the greatest depth.
fn rising(s: &[u8]) -> bool
    requires { length s.now % 5 ≡ 0 }
    ensures { result ≡ rising 0 (rows s.now) }
{
    let mut next: u64 = 0;
    let mut at: usize = 0;
    while at < s.len() {
        if two_bytes(s, at) != next {
            return false;
        }
        next = two_bytes(s, at + 2) + 1;
        at += 5;
    }
    next == DEPTHS
}

// The lowest millimetre in no row, from row to row; `DEPTHS` if there is none.
fn walk(s: &[u8]) -> u64
    requires { length s.now % 5 ≡ 0 }
    ensures { result ≡ uncovered (rows s.now) }
{
    let mut next: u64 = 0;
    while next < DEPTHS {
        let at = holder(s, next);
        if at >= s.len() {
            return next;
        }
        next = two_bytes(s, at + 2) + 1;
    }
    DEPTHS
}

// The lowest millimetre in no row; `DEPTHS` if there is none.
fn uncovered(s: &[u8]) -> u64
    requires { sound s.now ≡ true }
    ensures { result ≡ uncovered (rows s.now) }
{
    if rising(s) {
        return DEPTHS;
    }
    walk(s)
}

// The millimetres of all rows together.
fn width(s: &[u8]) -> u64
    requires { sound s.now ≡ true }
    ensures { result ≡ width (rows s.now) }
{
    let mut sum: u64 = 0;
    let mut at: usize = 0;
    while at < s.len() {
        sum += two_bytes(s, at + 2) + 1 - two_bytes(s, at);
        at += 5;
    }
    sum
}

fn lesser(a: u64, b: u64) -> u64
    ensures { result ≡ min a b }
{
    if a < b { a } else { b }
}

// The lowest millimetre in two rows; `DEPTHS` if there is none.
fn common(from: u64, to: u64, other_from: u64, other_to: u64) -> u64
    ensures { result ≡ common from to other_from other_to }
{
    let low = if from < other_from { other_from } else { from };
    if low > to {
        return DEPTHS;
    }
    if low > other_to {
        return DEPTHS;
    }
    low
}

// The lowest millimetre in the row at byte `at` and in a row behind it.
fn shared(s: &[u8], at: usize) -> u64
    requires { (length s.now % 5 ≡ 0) × (at % 5 ≡ 0) × (at < length s.now) }
    ensures { result ≡ shared (row_at s.now at).from (row_at s.now at).to (rest s.now (at + 5)) }
{
    let from = two_bytes(s, at);
    let to = two_bytes(s, at + 2);
    let mut lowest = DEPTHS;
    let mut j = at + 5;
    while j < s.len() {
        lowest = lesser(
            lowest,
            common(from, to, two_bytes(s, j), two_bytes(s, j + 2)),
        );
        j += 5;
    }
    lowest
}

// The lowest millimetre in two rows or more; `DEPTHS` if there is none.
fn doubled(s: &[u8]) -> u64
    requires { length s.now % 5 ≡ 0 }
    ensures { result ≡ doubled (rows s.now) }
{
    let mut lowest = DEPTHS;
    let mut at: usize = 0;
    while at < s.len() {
        lowest = lesser(lowest, shared(s, at));
        at += 5;
    }
    lowest
}

// What a strip of rows is answered.
pub fn judge(rows: &[u8]) -> Verdict
    ensures { verdict result.code result.millimetre ≡ judgement rows.now }
{
    if !sound(rows) {
        return Verdict {
            code: 11,
            millimetre: 0,
        };
    }
    let gap = uncovered(rows);
    if gap < DEPTHS {
        return Verdict {
            code: 12,
            millimetre: gap,
        };
    }
    if width(rows) == DEPTHS {
        return Verdict {
            code: 0,
            millimetre: 0,
        };
    }
    Verdict {
        code: 13,
        millimetre: doubled(rows),
    }
}

// Whether each row is one that a table may have and begins one past the row before it, from 0 to the greatest depth.
fn tiled(s: &[u8]) -> bool
    requires { length s.now % 5 ≡ 0 }
    ensures { result ≡ (all_fit (rows s.now) && rising 0 (rows s.now)) }
{
    let mut next: u64 = 0;
    let mut at: usize = 0;
    while at < s.len() {
        if two_bytes(s, at) != next {
            return false;
        }
        if !fit(s, at) {
            return false;
        }
        next = two_bytes(s, at + 2) + 1;
        at += 5;
    }
    next == DEPTHS
}

// Whether rows of as many millimetres as there are depths follow one another, in any order, from 0 to the greatest depth.
fn chained(s: &[u8]) -> bool
    requires { (sound s.now ≡ true) × (width (rows s.now) ≡ 10000) }
    ensures { result ≡ eqb (judgement s.now).code 0 }
{
    let mut next: u64 = 0;
    while next < DEPTHS {
        let at = starter(s, next);
        if at >= s.len() {
            return false;
        }
        next = two_bytes(s, at + 2) + 1;
    }
    true
}

// Whether a strip of rows is accepted, with no refusal told.
pub fn accepts(rows: &[u8]) -> bool
    ensures { result ≡ eqb (judgement rows.now).code 0 }
{
    if !sized(rows) {
        return false;
    }
    if tiled(rows) {
        return true;
    }
    if !sound(rows) {
        return false;
    }
    if width(rows) != DEPTHS {
        return false;
    }
    chained(rows)
}
