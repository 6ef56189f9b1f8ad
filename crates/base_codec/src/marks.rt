// The two-byte marks that records, the log's header and groups begin with.
ghost use Rattle.std.specs.Prelude.{◌≡◌, ◌&&◌, ◌+◌, ◌%◌, ◌^◌, ◌≤◌, eqb, length};
ghost use Rattle.model.specs.Bytes.{part, puts, number, same};
ghost use Rattle.model.specs.Layout.{header_mark, group_mark};
ghost use Rattle.model.specs.Batch.{group_write_mark, home_write_mark, header_write_mark, fence_mark};

use crate::numbers::number;

// Writes the two bytes of `mark` at index `at`.
fn put_mark(dst: &mut [u8], at: usize, mark: &[u8])
    requires { (at + 2 ≤ length dst.old) × (length mark.now ≡ 2) }
    ensures { dst.new ≡ puts dst.old at mark.now }
{
    dst[at] = mark[0];
    dst[at + 1] = mark[1];
}

// Whether the two bytes of `mark` stand at index `at`.
fn has_mark(s: &[u8], at: usize, mark: &[u8]) -> bool
    requires { (at + 2 ≤ length s.now) × (length mark.now ≡ 2) }
    ensures { result ≡ same (part s.now at 2) mark.now }
{
    if s[at] != mark[0] {
        return false;
    }
    if s[at + 1] != mark[1] {
        return false;
    }
    true
}

// Writes the mark of a group write at index `at`.
pub fn put_group_write_mark(dst: &mut [u8], at: usize)
    requires { at + 2 ≤ length dst.old }
    ensures { dst.new ≡ puts dst.old at group_write_mark }
{
    put_mark(dst, at, b"GW")
}

// Writes the mark of a home write at index `at`.
pub fn put_home_write_mark(dst: &mut [u8], at: usize)
    requires { at + 2 ≤ length dst.old }
    ensures { dst.new ≡ puts dst.old at home_write_mark }
{
    put_mark(dst, at, b"HW")
}

// Writes the mark of a header write at index `at`.
pub fn put_header_write_mark(dst: &mut [u8], at: usize)
    requires { at + 2 ≤ length dst.old }
    ensures { dst.new ≡ puts dst.old at header_write_mark }
{
    put_mark(dst, at, b"KW")
}

// Writes the mark of a fence at index `at`.
pub fn put_fence_mark(dst: &mut [u8], at: usize)
    requires { at + 2 ≤ length dst.old }
    ensures { dst.new ≡ puts dst.old at fence_mark }
{
    put_mark(dst, at, b"FN")
}

// Writes the mark of the log's header at index `at`.
pub fn put_header_mark(dst: &mut [u8], at: usize)
    requires { at + 2 ≤ length dst.old }
    ensures { dst.new ≡ puts dst.old at header_mark }
{
    put_mark(dst, at, b"PT")
}

// Writes the mark of a group at index `at`.
pub fn put_group_mark(dst: &mut [u8], at: usize)
    requires { at + 2 ≤ length dst.old }
    ensures { dst.new ≡ puts dst.old at group_mark }
{
    put_mark(dst, at, b"PG")
}

// Whether the mark of the log's header stands at index `at`.
pub fn has_header_mark(s: &[u8], at: usize) -> bool
    requires { at + 2 ≤ length s.now }
    ensures { result ≡ same (part s.now at 2) header_mark }
{
    has_mark(s, at, b"PT")
}

// Whether the mark of a group and the number `n` stand in the eight bytes from index `at` on. All eight are compared at once. [S-10]
pub fn has_group_head(s: &[u8], at: usize, n: u64) -> bool
    requires { at + 8 ≤ length s.now }
    ensures { result ≡ (same (part s.now at 2) group_mark && eqb (number 6 s.now (at + 2)) (n % 2 ^ 48)) }
{
    let mark = number(b"PG", 0, 2);
    number(s, at, 8) == n % 0x1_0000_0000_0000 * 0x1_0000 + mark
}
