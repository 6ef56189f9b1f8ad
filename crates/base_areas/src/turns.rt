// Data blocks that hold a turn bit alone.
ghost use Rattle.std.specs.Prelude.{◌≡◌, ◌+◌, ◌<◌, ◌≤◌, length};
ghost use Rattle.model.specs.Bytes.{puts};
ghost use Rattle.model.specs.Layout.{turn_blocks};

// Writes seven data blocks of zeros but for the turn bit `bit` from index `at` on.
pub fn put_turn_blocks(dst: &mut [u8], at: usize, bit: u64)
    requires { (at + 448 ≤ length dst.old) × (bit < 2) }
    ensures { dst.new ≡ puts dst.old at (turn_blocks 7 bit) }
{
    let last = 128 * bit as u8;
    let mut to = at;
    let mut left: usize = 7;
    while left > 0 {
        base_codec::clear(dst, to, 63);
        dst[to + 63] = last;
        to += 64;
        left -= 1;
    }
}
