// Strips of 5-byte rows: from and to, 16 bits each, lowest byte first, and pumps.
ghost use Rattle.std.specs.Prelude.{◌≡◌, ◌+◌, ◌*◌, ◌%◌, ◌≤◌, ◌<◌, length, get_or};
ghost use Rattle.unit_bands_table.specs.Rows.{band, rows, holds, place, lookup};
ghost use Rattle.unit_bands_table.specs.Judge.{fit, all_fit, sound};
ghost use Rattle.unit_bands_table.specs.Sweep.{row_at, sized, starting};

// Depths are below this.
pub const DEPTHS: u64 = 10000;

// A row as it is told: both ends, and pumps.
#[derive(Clone, Copy)]
pub struct Row {
    pub from: u64,
    pub to: u64,
    pub pumps: u64,
}

// The number that the two bytes from index `at` on make.
pub fn two_bytes(s: &[u8], at: usize) -> u64
    requires { at + 2 ≤ length s.now }
    ensures { (result ≡ get_or s.now at 0 + 256 * get_or s.now (at + 1) 0) × (result < 65536) }
{
    s[at] as u64 | (s[at + 1] as u64) << 8
}

// Whether the row at byte `at` is one that a table may have.
pub fn fit(s: &[u8], at: usize) -> bool
    requires { at + 5 ≤ length s.now }
    ensures { result ≡ fit (row_at s.now at) }
{
    let to = two_bytes(s, at + 2);
    if two_bytes(s, at) > to {
        return false;
    }
    if to >= DEPTHS {
        return false;
    }
    s[at + 4] <= 4
}

// Whether all rows of a strip of whole rows are such.
fn all_fit(s: &[u8]) -> bool
    requires { length s.now % 5 ≡ 0 }
    ensures { result ≡ all_fit (rows s.now) }
{
    let mut at: usize = 0;
    while at < s.len() {
        if !fit(s, at) {
            return false;
        }
        at += 5;
    }
    true
}

// Whether a strip holds 1 to 32 whole rows.
pub fn sized(s: &[u8]) -> bool
    ensures { result ≡ sized s.now }
{
    if s.len() == 0 {
        return false;
    }
    if s.len() > 5 * 32 {
        return false;
    }
    s.len() % 5 == 0
}

// Whether a strip holds 1 to 32 whole rows that a table may have.
pub fn sound(s: &[u8]) -> bool
    ensures { result ≡ sound s.now }
{
    if !sized(s) {
        return false;
    }
    all_fit(s)
}

// Whether a millimetre lies in the row at byte `at`.
fn holds(s: &[u8], at: usize, mm: u64) -> bool
    requires { at + 5 ≤ length s.now }
    ensures { result ≡ holds mm (row_at s.now at) }
{
    if mm < two_bytes(s, at) {
        return false;
    }
    mm <= two_bytes(s, at + 2)
}

// The byte at which the first row begins that a millimetre lies in; the strip's length if it lies in none.
pub fn holder(s: &[u8], mm: u64) -> usize
    requires { length s.now % 5 ≡ 0 }
    ensures { result ≡ 5 * place mm (rows s.now) }
{
    let mut at: usize = 0;
    while at < s.len() {
        if holds(s, at, mm) {
            return at;
        }
        at += 5;
    }
    at
}

// The byte at which the first row stands that begins at a millimetre; the strip's length if none does.
pub fn starter(s: &[u8], mm: u64) -> usize
    requires { length s.now % 5 ≡ 0 }
    ensures { result ≡ 5 * starting mm (rows s.now) }
{
    let mut at: usize = 0;
    while at < s.len() {
        if two_bytes(s, at) == mm {
            return at;
        }
        at += 5;
    }
    at
}

// The first row that a millimetre lies in; zeros if it lies in none.
pub fn find(s: &[u8], mm: u64) -> Row
    requires { length s.now % 5 ≡ 0 }
    ensures { band result.from result.to result.pumps ≡ lookup mm (rows s.now) }
{
    let at = holder(s, mm);
    if at >= s.len() {
        return Row {
            from: 0,
            to: 0,
            pumps: 0,
        };
    }
    Row {
        from: two_bytes(s, at),
        to: two_bytes(s, at + 2),
        pumps: s[at + 4] as u64,
    }
}
