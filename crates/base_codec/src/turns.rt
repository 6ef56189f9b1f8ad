// The top bit of a block's last byte, where a data block of the log has its turn bit: read, and replaced in a copy.
ghost use Rattle.std.specs.Prelude.{◌≡◌, ◌+◌, ◌<◌, ◌≤◌, length};
ghost use Rattle.model.specs.Bytes.{part, puts};
ghost use Rattle.model.specs.Layout.{top_bit, with_top_bit};

use crate::blocks::copy;

// The top bit of the block that stands from index `at` on.
pub fn top_bit(s: &[u8], at: usize) -> u64
    requires { at + 64 ≤ length s.now }
    ensures { (result ≡ top_bit (part s.now at 64)) × (result < 2) }
{
    (s[at + 63] >> 7) as u64
}

// Writes the block that stands in `src` from index `from` on, with the top bit `bit`, into `dst` from index `at` on.
pub fn copy_with_top_bit(dst: &mut [u8], at: usize, src: &[u8], from: usize, bit: u64)
    requires { (at + 64 ≤ length dst.old) × (from + 64 ≤ length src.now) × (bit < 2) }
    ensures { dst.new ≡ puts dst.old at (with_top_bit (part src.now from 64) bit) }
{
    copy(dst, at, &src[from..from + 64]);
    dst[at + 63] = src[from + 63] % 128 + 128 * bit as u8;
}
