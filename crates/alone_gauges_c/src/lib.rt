// The comparison of two lists of levels for C: the call of crates/alone_gauges with its contract.
#![tactic(auto)]

ghost use Rattle.std.specs.Prelude.{◌≡◌};
ghost use Rattle.alone_gauges.specs.Compare.{leaves, compare_gauges};

use alone_gauges::Comparison;

// Reports every minute of either list once, rising, as agreeing, differing or in one list only.
#[unsafe(no_mangle)]
pub extern "C" fn kagutin_compare_gauges(
    first: &[u8],
    second: &[u8],
    report: &mut [u8],
    tolerance: u16,
) -> Comparison
    ensures { leaves result.code result.agreeing result.differing result.only_first result.only_second report.new
        ≡ compare_gauges first.now second.now report.old tolerance }
{
    alone_gauges::kagutin_compare_gauges(first, second, report, tolerance)
}
