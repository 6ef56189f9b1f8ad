// Runs of bytes: copied, cleared and tested.
ghost use Rattle.std.specs.Prelude.{◌≡◌, ◌+◌, ◌≤◌, length};
ghost use Rattle.model.specs.Bytes.{part, puts, zeros, same};

use crate::numbers::{number, put_number};

// Writes the 16 bytes of `src` from index `from` on into `dst` from index `at` on. Both words are read before one is written: a wide move.
fn copy_words(dst: &mut [u8], at: usize, src: &[u8], from: usize)
    requires { (at + 16 ≤ length dst.old) × (from + 16 ≤ length src.now) }
    ensures { dst.new ≡ puts dst.old at (part src.now from 16) }
{
    let low = number(src, from, 8);
    let high = number(src, from + 8, 8);
    put_number(dst, at, 8, low);
    put_number(dst, at + 8, 8, high);
}

// Writes the bytes of `src` from index `at` on, and leaves the other bytes as they were.
pub fn copy(dst: &mut [u8], at: usize, src: &[u8])
    requires { at + length src.now ≤ length dst.old }
    ensures { dst.new ≡ puts dst.old at src.now }
{
    let mut i = at;
    let mut j: usize = 0;
    while src.len() - j >= 16 {
        copy_words(dst, i, src, j);
        i += 16;
        j += 16;
    }
    while j < src.len() {
        dst[i] = src[j];
        i += 1;
        j += 1;
    }
}

// Writes `n` zeros from index `at` on, and leaves the other bytes as they were.
pub fn clear(dst: &mut [u8], at: usize, n: usize)
    requires { at + n ≤ length dst.old }
    ensures { dst.new ≡ puts dst.old at (zeros n) }
{
    let mut i = at;
    let mut left = n;
    while left > 0 {
        dst[i] = 0;
        i += 1;
        left -= 1;
    }
}

// Whether the `n` bytes from index `at` on are all zero.
pub fn all_zero(s: &[u8], at: usize, n: usize) -> bool
    requires { at + n ≤ length s.now }
    ensures { result ≡ same (part s.now at n) (zeros n) }
{
    let mut i = at;
    let mut left = n;
    while left >= 8 {
        if number(s, i, 8) != 0 {
            return false;
        }
        i += 8;
        left -= 8;
    }
    while left > 0 {
        if s[i] != 0 {
            return false;
        }
        i += 1;
        left -= 1;
    }
    true
}
