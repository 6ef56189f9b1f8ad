// The calls on the table of depth bands for C: those of crates/unit_bands with their contracts.
#![tactic(auto)]

ghost use Rattle.std.specs.Prelude.{◌≡◌, []};
ghost use Rattle.unit_shared.specs.Unit.{lent_to, leaves};
ghost use Rattle.unit_bands.specs.Calls.{set_call, look_up_call};
ghost use Rattle.unit_bands_table.specs.Packed.{answered};

use call_ask::Reply;
use unit_bands::Band;

// Sets the table; the figure is the ticket of its commit, with 12 and 13 the lowest millimetre in no row or in two.
#[unsafe(no_mangle)]
pub extern "C" fn kagutin_bands_set(
    log: &mut [u8],
    area: &[u8],
    state: &mut [u8],
    newest: &mut [u8],
    batch: &mut [u8],
    rows: &[u8],
    writer: u64,
) -> Reply
    ensures { leaves result.code result.figure result.size log.new area.now state.new newest.new
        batch.new
        ≡ set_call (lent_to log.old area.now state.old newest.old batch.old) writer
        rows.now }
{
    unit_bands::kagutin_bands_set(log, area, state, newest, batch, rows, writer)
}

// The row of the table that a depth in millimetres lies in; 11 above 9,999, or where there is no table.
#[unsafe(no_mangle)]
pub extern "C" fn kagutin_bands_look_up(
    log: &[u8],
    area: &[u8],
    state: &[u8],
    newest: &[u8],
    writer: u64,
    mm: u64,
) -> Band
    ensures { answered result.code result.from result.to result.pumps
        ≡ look_up_call (lent_to log.now area.now state.now newest.now []) writer mm }
{
    unit_bands::kagutin_bands_look_up(log, area, state, newest, writer, mm)
}
