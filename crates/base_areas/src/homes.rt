// The home blocks of the data area.
ghost use Rattle.std.specs.Prelude.{◌≡◌, ◌+◌, ◌*◌, ◌≤◌, length};
ghost use Rattle.model.specs.Layout.{home_at, put_home};

use crate::blocks::copy_block;

// Writes a block into a home.
pub fn put_home(area: &mut [u8], home: usize, block: &[u8])
    requires { (64 * home + 64 ≤ length area.old) × (length block.now ≡ 64) }
    ensures { area.new ≡ put_home area.old home block.now }
{
    copy_block(area, 64 * home, block, 0)
}

// Reads a home into a block buffer.
pub fn get_home(block: &mut [u8], area: &[u8], home: usize)
    requires { (64 * home + 64 ≤ length area.now) × (length block.old ≡ 64) }
    ensures { block.new ≡ home_at area.now home }
{
    copy_block(block, 0, area, 64 * home)
}
