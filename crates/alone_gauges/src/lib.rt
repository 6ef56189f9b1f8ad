// Two lists of levels of one pit, as a pressure cell and an echo sounder give them, compared minute by minute.
#![tactic(auto)]

mod merge;
mod readings;

ghost use Rattle.std.specs.Prelude.{◌≡◌, ◌+◌, ◌<◌};
ghost use Rattle.alone_gauges.specs.Compare.{leaves, compare_gauges};
ghost use Rattle.alone_gauges.specs.Kind.{kind_number};
ghost use Rattle.alone_gauges.specs.Report.{hit};

use merge::{Kind, tally, write_lines};
use readings::acceptable;

// The answer of the call: 0 for done or 22, and the lines of each kind.
#[repr(C)]
#[derive(Drop)]
pub struct Comparison {
    pub code: u64,
    pub agreeing: u64,
    pub differing: u64,
    pub only_first: u64,
    pub only_second: u64,
}

impl Comparison {
    // An answer with no lines counted.
    fn of_none(code: u64) -> Self
        ensures { (result.code ≡ code) × (result.agreeing ≡ 0) × (result.differing ≡ 0) × (result.only_first ≡ 0) × (result.only_second ≡ 0) }
    {
        Comparison {
            code,
            agreeing: 0,
            differing: 0,
            only_first: 0,
            only_second: 0,
        }
    }

    // The same counts and one more line.
    #[tactic(auto, unfolding(crate::specs::Report::hit))]
    fn with_line(self, kind: Kind) -> Self
        requires agreeing { self.agreeing < 65536 }
        requires differing { self.differing < 65536 }
        requires only_first { self.only_first < 65536 }
        requires only_second { self.only_second < 65536 }
        ensures agreeing { result.agreeing ≡ self.agreeing + hit (kind_number kind) 1 }
        ensures differing { result.differing ≡ self.differing + hit (kind_number kind) 2 }
        ensures only_first { result.only_first ≡ self.only_first + hit (kind_number kind) 3 }
        ensures only_second { result.only_second ≡ self.only_second + hit (kind_number kind) 4 }
        ensures code { result.code ≡ self.code }
    {
        match kind {
            Kind::Agreeing => Comparison {
                agreeing: self.agreeing + 1,
                ..self
            },
            Kind::Differing => Comparison {
                differing: self.differing + 1,
                ..self
            },
            Kind::OnlyFirst => Comparison {
                only_first: self.only_first + 1,
                ..self
            },
            Kind::OnlySecond => Comparison {
                only_second: self.only_second + 1,
                ..self
            },
        }
    }
}

// Reports every minute of either list once, rising, as agreeing, differing or in one list only. [S-71]
#[unsafe(no_mangle)]
pub extern "C" fn kagutin_compare_gauges(
    first: &[u8],
    second: &[u8],
    report: &mut [u8],
    tolerance: u16,
) -> Comparison
    ensures { leaves result.code result.agreeing result.differing result.only_first result.only_second report.new
        ≡ compare_gauges first.now second.now report.old tolerance }
{
    if !acceptable(first) {
        return Comparison::of_none(22);
    }
    if !acceptable(second) {
        return Comparison::of_none(22);
    }
    let tolerance = u64::from(tolerance);
    let counts = tally(first, second, tolerance);
    let lines = counts.agreeing + counts.differing + counts.only_first + counts.only_second;
    if (report.len() as u64) < 3 * lines {
        return Comparison::of_none(22);
    }
    write_lines(report, first, second, tolerance);
    counts
}
