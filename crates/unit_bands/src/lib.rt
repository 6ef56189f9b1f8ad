// Depth bands: a table of which pumps run at which depth, set as one transaction and looked up. It stands on the store's calls alone.
#![tactic(auto)]

ghost use Rattle.std.specs.Prelude.{◌≡◌, []};
ghost use Rattle.unit_shared.specs.Unit.{lent_to, leaves};
ghost use Rattle.unit_bands_table.specs.Packed.{answered};
ghost use Rattle.unit_bands.specs.Calls.{set_call, look_up_call};

use call_ask::Reply;

// The first of the three homes.
const HOME: u64 = 12;

// The row of a depth: 0 and the row, or the number of the refusal and zeros.
#[repr(C)]
#[derive(Clone, Copy)]
pub struct Band {
    pub code: u64,
    pub from: u64,
    pub to: u64,
    pub pumps: u64,
}

fn refused(code: u64) -> Band
    ensures { answered result.code result.from result.to result.pumps ≡ answered code 0 0 0 }
{
    Band {
        code,
        from: 0,
        to: 0,
        pumps: 0,
    }
}

// Sets the table; the figure is the ticket of its commit, with 12 and 13 the lowest millimetre in no row or in two. [S-65]
#[unsafe(no_mangle)]
pub extern "C" fn kagutin_bands_set(
    log: &mut [u8],
    area: &[u8],
    state: &mut [u8],
    newest: &mut [u8],
    batch: &mut [u8],
    rows: &[u8],
    writer: u64,
) -> Reply
    ensures { leaves result.code result.figure result.size log.new area.now state.new newest.new
        batch.new
        ≡ set_call (lent_to log.old area.now state.old newest.old batch.old) writer
        rows.now }
{
    let v = unit_bands_table::judge(rows);
    if v.code != 0 {
        return Reply {
            code: v.code,
            figure: v.millimetre,
            size: 0,
        };
    }
    let mut table = [0; 192];
    unit_bands_table::pack(rows, &mut table);
    kagutin::kagutin_transact(log, area, state, newest, &table, batch, writer, HOME)
}

// The row of the table that a depth in millimetres lies in; 11 above 9,999, or where there is no table. [S-66]
#[unsafe(no_mangle)]
pub extern "C" fn kagutin_bands_look_up(
    log: &[u8],
    area: &[u8],
    state: &[u8],
    newest: &[u8],
    writer: u64,
    mm: u64,
) -> Band
    ensures { answered result.code result.from result.to result.pumps
        ≡ look_up_call (lent_to log.now area.now state.now newest.now []) writer mm }
{
    if mm >= unit_bands_table::DEPTHS {
        return refused(11);
    }
    let mut table = [0; 192];
    let read = kagutin::kagutin_fetch(log, area, state, newest, &mut table, writer, HOME);
    if read.code != 0 {
        return refused(read.code);
    }
    let found = unit_bands_table::look_up(&table, mm);
    Band {
        code: found.code,
        from: found.from,
        to: found.to,
        pumps: found.pumps,
    }
}
