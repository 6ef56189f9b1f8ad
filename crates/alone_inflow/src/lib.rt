// Least and most inflow of a pit whose depth is known only as between two floats.
#![tactic(auto)]

ghost use Rattle.std.specs.Prelude.{◌≡◌, ◌≤◌, pos};
ghost use Rattle.alone_inflow.specs.Inflow.{inflow, given, gives, bound_inflow};

// The answer of the call: 0 for done or 23, and both volumes in cm² × mm.
#[repr(C)]
#[derive(Drop)]
pub struct Bounds {
    pub code: u64,
    pub least: i64,
    pub most: i64,
}

fn refused() -> Bounds
    ensures { (result.code ≡ 23) × (result.least ≡ pos 0) × (result.most ≡ pos 0) }
{
    Bounds {
        code: 23,
        least: 0,
        most: 0,
    }
}

// Area × change of depth + pumped.
fn inflow(area: u64, before: u16, after: u16, pumped: u32) -> i64
    requires { area ≤ 1000000 }
    ensures { result ≡ inflow area before after pumped }
{
    let gained = area * u64::from(after) + u64::from(pumped);
    let held = area * u64::from(before);
    gained as i64 - held as i64
}

// The least and the most inflow between two moments, from the depth range at each, the pit's area and the range of pumped volume. [S-72]
#[unsafe(no_mangle)]
pub extern "C" fn kagutin_inflow(
    area: u64,
    low_before: u16,
    high_before: u16,
    low_after: u16,
    high_after: u16,
    low_pumped: u32,
    high_pumped: u32,
) -> Bounds
    ensures { gives result.code result.least result.most
        ≡ bound_inflow (given area low_before high_before low_after high_after low_pumped high_pumped) }
{
    if area < 1
        || area > 1_000_000
        || low_before > high_before
        || low_after > high_after
        || low_pumped > high_pumped
    {
        return refused();
    }
    let least = inflow(area, high_before, low_after, low_pumped);
    let most = inflow(area, low_before, high_after, high_pumped);
    Bounds {
        code: 0,
        least,
        most,
    }
}
