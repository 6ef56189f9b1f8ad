// Both lists read side by side, the lower minute first: one pass counts the lines, another writes them.
ghost use Rattle.std.specs.Prelude.{◌≡◌, ◌∷◌, [], true, ◌+◌, ◌*◌, ◌≤◌, ◌<◌, length};
ghost use Rattle.alone_gauges.specs.Kind.{kind_number};
ghost use Rattle.alone_gauges.specs.Readings.{readings, acceptable};
ghost use Rattle.alone_gauges.specs.Report.{line, kind_of, report, encode};
ghost use Rattle.alone_gauges.specs.Compare.{written};
ghost use Rattle.alone_gauges.specs.Merge.{Place, Stepped, Counted, puts};

use crate::Comparison;
use crate::readings::two_bytes;

// What a line tells of its minute, with its byte in the report.
#[derive(Clone, Copy, PartialEq, Eq)]
pub enum Kind {
    Agreeing = 1,
    Differing = 2,
    OnlyFirst = 3,
    OnlySecond = 4,
}

impl Kind {
    // The byte that a report has for it.
    fn number(self) -> u8
        ensures { result ≡ kind_number self }
    {
        self as u8
    }
}

// A line, and the places of the rows behind those that it tells.
#[derive(Drop)]
struct Step {
    minute: u64,
    kind: Kind,
    first: usize,
    second: usize,
}

// The kind of a minute that both lists have.
#[tactic(auto, unfolding(crate::specs::Report::kind_of, crate::specs::Report::difference))]
fn kind_of(a: u64, b: u64, tolerance: u64) -> Kind
    ensures { kind_number result ≡ kind_of tolerance a b }
{
    let difference = a.abs_diff(b);
    if difference <= tolerance {
        Kind::Agreeing
    } else {
        Kind::Differing
    }
}

// The next line of the rows from byte `i` of the first strip and byte `j` of the second on.
fn next_line(first: &[u8], second: &[u8], i: usize, j: usize, tolerance: u64) -> Step
    requires { Place first.now i × Place second.now j × (i + j < length first.now + length second.now) }
    ensures { Stepped tolerance first.now second.now i j result.minute (kind_number result.kind) result.first result.second }
{
    if j >= second.len() {
        let minute = two_bytes(first, i);
        return Step {
            minute,
            kind: Kind::OnlyFirst,
            first: i + 4,
            second: j,
        };
    }
    let later = two_bytes(second, j);
    if i >= first.len() {
        return Step {
            minute: later,
            kind: Kind::OnlySecond,
            first: i,
            second: j + 4,
        };
    }
    let minute = two_bytes(first, i);
    if minute < later {
        return Step {
            minute,
            kind: Kind::OnlyFirst,
            first: i + 4,
            second: j,
        };
    }
    if later < minute {
        return Step {
            minute: later,
            kind: Kind::OnlySecond,
            first: i,
            second: j + 4,
        };
    }
    let kind = kind_of(two_bytes(first, i + 2), two_bytes(second, j + 2), tolerance);
    Step {
        minute,
        kind,
        first: i + 4,
        second: j + 4,
    }
}

// The answer of a call that is done, with the lines of each kind.
pub fn tally(first: &[u8], second: &[u8], tolerance: u64) -> Comparison
    requires { (acceptable first.now ≡ true) × (acceptable second.now ≡ true) }
    ensures done { result.code ≡ 0 }
    ensures counted { Counted (report tolerance (readings first.now) (readings second.now)) result.agreeing
        result.differing result.only_first result.only_second }
{
    let rows = first.len() + second.len();
    let mut counts = Comparison::of_none(0);
    let mut i: usize = 0;
    let mut j: usize = 0;
    // Stays a `while`: two places move, each by a row or by none, so no range counts the turns.
    while i + j < rows {
        let next = next_line(first, second, i, j, tolerance);
        counts = counts.with_line(next.kind);
        i = next.first;
        j = next.second;
    }
    counts
}

// Writes a line's three bytes from index `at` on, and leaves the other bytes as they were.
fn put_line(output: &mut [u8], at: usize, minute: u64, kind: Kind)
    requires { at + 3 ≤ length output.old }
    ensures { output.new ≡ puts output.old at (encode (line minute (kind_number kind) ∷ [])) }
{
    output[at] = (minute % 256) as u8;
    output[at + 1] = (minute / 256 % 256) as u8;
    output[at + 2] = kind.number();
}

// Writes the lines, and leaves the bytes past them as they were.
pub fn write_lines(output: &mut [u8], first: &[u8], second: &[u8], tolerance: u64)
    requires { (acceptable first.now ≡ true) × (acceptable second.now ≡ true)
        × (3 * length (report tolerance (readings first.now) (readings second.now)) ≤ length output.old) }
    ensures { output.new
        ≡ written (report tolerance (readings first.now) (readings second.now)) output.old }
{
    let rows = first.len() + second.len();
    let mut i: usize = 0;
    let mut j: usize = 0;
    let mut at: usize = 0;
    // Stays a `while`: two places move, each by a row or by none, so no range counts the turns.
    while i + j < rows {
        let next = next_line(first, second, i, j, tolerance);
        put_line(output, at, next.minute, next.kind);
        i = next.first;
        j = next.second;
        at += 3;
    }
}
