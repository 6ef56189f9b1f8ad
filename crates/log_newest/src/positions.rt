// The strip of newest positions: read, changed, emptied, and rid of what lies before a new start.
ghost use Rattle.std.specs.Prelude.{◌≡◌, cond, List, ℕ, ◌+◌, ◌*◌, ◌≤◌, ltb, length};
ghost use Rattle.model.specs.Newest.{no_position, kept_for, keep, nothing_kept, forget};

// What is kept for no position: all ones.
const NO_POSITION: u64 = 0xffff_ffff_ffff_ffff;

// The position that is kept for a home.
pub fn kept(newest: &[u8], home: usize) -> u64
    requires { 8 * home + 8 ≤ length newest.now }
    ensures { result ≡ kept_for newest.now home }
{
    base_codec::number(newest, 8 * home, 8)
}

// Keeps a position for a home.
pub fn keep(newest: &mut [u8], home: usize, position: u64)
    requires { 8 * home + 8 ≤ length newest.old }
    ensures { newest.new ≡ keep newest.old home position }
{
    base_codec::put_number(newest, 8 * home, 8, position)
}

// Keeps no position for any home.
pub fn keep_nothing(newest: &mut [u8], homes: usize)
    requires { length newest.old ≡ 8 * homes }
    ensures { newest.new ≡ nothing_kept homes }
{
    let mut i: usize = 0;
    let mut left = newest.len();
    while left > 0 {
        newest[i] = 255;
        i += 1;
        left -= 1;
    }
}

// Keeps no position any more for a home where it lies before a bound.
fn forget_one(newest: &mut [u8], bound: u64, home: usize)
    requires { 8 * home + 8 ≤ length newest.old }
    ensures { newest.new
        ≡ cond (ltb (kept_for newest.old home) bound) (keep newest.old home no_position) newest.old }
{
    if kept(newest, home) >= bound {
        return;
    }
    keep(newest, home, NO_POSITION)
}

// The same for the homes from `from` to below `upto`.
fn forget_to(newest: &mut [u8], bound: u64, from: usize, upto: usize)
    requires { (from ≤ upto) × (8 * upto ≤ length newest.old) }
    ensures { (before : List ℕ) → newest.old ≡ forget before bound from → newest.new ≡ forget before bound upto }
{
    let mut home = from;
    while home < upto {
        forget_one(newest, bound, home);
        home += 1;
    }
}

// The same for the eight homes from `home` on, in a row.
fn forget_eight(newest: &mut [u8], bound: u64, home: usize)
    requires { 8 * home + 64 ≤ length newest.old }
    ensures { (before : List ℕ) → newest.old ≡ forget before bound home → newest.new ≡ forget before bound (home + 8) }
{
    forget_one(newest, bound, home);
    forget_one(newest, bound, home + 1);
    forget_one(newest, bound, home + 2);
    forget_one(newest, bound, home + 3);
    forget_one(newest, bound, home + 4);
    forget_one(newest, bound, home + 5);
    forget_one(newest, bound, home + 6);
    forget_one(newest, bound, home + 7);
}

// Keeps no position any more for the first `homes` homes where it lies before a bound, eight at a time.
pub fn forget(newest: &mut [u8], bound: u64, homes: usize)
    requires { 8 * homes ≤ length newest.old }
    ensures { newest.new ≡ forget newest.old bound homes }
{
    let mut home: usize = 0;
    while home + 8 <= homes {
        forget_eight(newest, bound, home);
        home += 8;
    }
    forget_to(newest, bound, home, homes)
}
