// A table in its three home blocks, 192 bytes: the number of rows, the rows, zeros behind.
ghost use Rattle.std.specs.Prelude.{◌≡◌, ◌≤◌, length, get_or};
ghost use Rattle.unit_bands_table.specs.Packed.{answered, pack, table_rows, look_up};

use crate::judging::accepts;
use crate::rows::find;

// The bytes of the home blocks.
pub const SIZE: usize = 192;

// What a lookup finds: 0 and a row, or 11 and zeros.
#[derive(Clone, Copy)]
pub struct Lookup {
    pub code: u64,
    pub from: u64,
    pub to: u64,
    pub pumps: u64,
}

// The byte `i` of a strip, zero behind it.
fn byte(rows: &[u8], i: usize) -> u8
    ensures { result ≡ get_or rows.now i 0 }
{
    if i < rows.len() { rows[i] } else { 0 }
}

// Packs the rows of an accepted table, over whatever the blocks held.
pub fn pack(rows: &[u8], packed: &mut [u8])
    requires { (length rows.now ≤ 160) × (length packed.old ≡ 192) }
    ensures { packed.new ≡ pack rows.now }
{
    packed[0] = (rows.len() / 5 % 256) as u8;
    let mut i: usize = 1;
    while i < SIZE {
        packed[i] = byte(rows, i - 1);
        i += 1;
    }
}

// The number of rows of the table that the blocks hold; 0 if that is no acceptable one.
pub fn judge_packed(packed: &[u8]) -> usize
    requires { length packed.now ≡ 192 }
    ensures { result ≡ table_rows packed.now }
{
    let count = packed[0] as usize;
    if count > 32 {
        return 0;
    }
    if !accepts(&packed[1..1 + 5 * count]) {
        return 0;
    }
    count
}

// The row that a millimetre lies in, of the table that the blocks hold; 11 if that is no acceptable one.
pub fn look_up(packed: &[u8], mm: u64) -> Lookup
    requires { length packed.now ≡ 192 }
    ensures { answered result.code result.from result.to result.pumps ≡ look_up packed.now mm }
{
    let count = judge_packed(packed);
    if count == 0 {
        return Lookup {
            code: 11,
            from: 0,
            to: 0,
            pumps: 0,
        };
    }
    let row = find(&packed[1..1 + 5 * count], mm);
    Lookup {
        code: 0,
        from: row.from,
        to: row.to,
        pumps: row.pumps,
    }
}
