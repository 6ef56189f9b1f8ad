// The least and the most inflow for C: the call of crates/alone_inflow with its contract.
#![tactic(auto)]

ghost use Rattle.std.specs.Prelude.{◌≡◌};
ghost use Rattle.alone_inflow.specs.Inflow.{given, gives, bound_inflow};

use alone_inflow::Bounds;

// The least and the most inflow between two moments, from the depth range at each, the pit's area and the range of pumped volume.
#[unsafe(no_mangle)]
pub extern "C" fn kagutin_inflow(
    area: u64,
    low_before: u16,
    high_before: u16,
    low_after: u16,
    high_after: u16,
    low_pumped: u32,
    high_pumped: u32,
) -> Bounds
    ensures { gives result.code result.least result.most
        ≡ bound_inflow (given area low_before high_before low_after high_after low_pumped high_pumped) }
{
    alone_inflow::kagutin_inflow(
        area,
        low_before,
        high_before,
        low_after,
        high_after,
        low_pumped,
        high_pumped,
    )
}
