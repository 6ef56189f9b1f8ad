// A block of 64 bytes copied from one area into another.
ghost use Rattle.std.specs.Prelude.{◌≡◌, ◌+◌, ◌≤◌, length};
ghost use Rattle.model.specs.Bytes.{part, puts};

// Writes the block that stands in `src` from index `from` on into `dst` from index `at` on.
pub fn copy_block(dst: &mut [u8], at: usize, src: &[u8], from: usize)
    requires { (at + 64 ≤ length dst.old) × (from + 64 ≤ length src.now) }
    ensures { dst.new ≡ puts dst.old at (part src.now from 64) }
{
    base_codec::copy(dst, at, &src[from..from + 64])
}
