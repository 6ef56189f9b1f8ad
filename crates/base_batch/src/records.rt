// One record appended to a batch: each function writes it from index `at` on and returns the index after it.
ghost use Rattle.std.specs.Prelude.{◌≡◌, ◌++◌, ◌+◌, ◌*◌, ◌<◌, ◌≤◌, length};
ghost use Rattle.model.specs.Bytes.{puts, zeros};
ghost use Rattle.model.specs.Layout.{header, group_at, turn_blocks, home_at};
ghost use Rattle.model.specs.Batch.{GW, HW, KW, FN, record_bytes};

use base_codec::{GROUP_SIZE, HEADER_SIZE};

// Appends the write of the group that the log holds in a ring slot. [S-5]
pub fn group_write(batch: &mut [u8], at: usize, slot: usize, log: &[u8]) -> usize
    requires { (at + 516 ≤ length batch.old) × (64 + 512 * slot + 512 ≤ length log.now) }
    ensures value { result ≡ at + 516 }
    ensures batch_after { batch.new ≡ puts batch.old at (record_bytes (GW slot (group_at log.now slot))) }
{
    base_codec::put_group_write_mark(batch, at);
    base_codec::put_number(batch, at + 2, 2, slot as u64);
    let from = HEADER_SIZE + GROUP_SIZE * slot;
    base_codec::copy(batch, at + 4, &log[from..from + GROUP_SIZE]);
    at + 516
}

// Appends the write of the block that the data area holds in a home. [S-5]
pub fn home_write(batch: &mut [u8], at: usize, home: usize, area: &[u8]) -> usize
    requires { (at + 68 ≤ length batch.old) × (64 * home + 64 ≤ length area.now) }
    ensures value { result ≡ at + 68 }
    ensures batch_after { batch.new ≡ puts batch.old at (record_bytes (HW home (home_at area.now home))) }
{
    base_codec::put_home_write_mark(batch, at);
    base_codec::put_number(batch, at + 2, 2, home as u64);
    base_areas::copy_block(batch, at + 4, area, 64 * home);
    at + 68
}

// Appends the write of the header with a start and the numbers of groups and homes. [S-5]
pub fn header_write(batch: &mut [u8], at: usize, start: u64, groups: u64, homes: u64) -> usize
    requires { at + 66 ≤ length batch.old }
    ensures value { result ≡ at + 66 }
    ensures batch_after { batch.new ≡ puts batch.old at (record_bytes (KW (header start groups homes))) }
{
    base_codec::put_header_write_mark(batch, at);
    base_areas::put_header(batch, at + 2, start, groups, homes);
    at + 66
}

// Appends a fence. [S-5]
pub fn fence(batch: &mut [u8], at: usize) -> usize
    requires { at + 2 ≤ length batch.old }
    ensures value { result ≡ at + 2 }
    ensures batch_after { batch.new ≡ puts batch.old at (record_bytes FN) }
{
    base_codec::put_fence_mark(batch, at);
    at + 2
}

// Appends the write of an unused group, whose data blocks have the turn bit `bit`, to a ring slot.
pub fn unused_write(batch: &mut [u8], at: usize, slot: u64, bit: u64) -> usize
    requires { (at + 516 ≤ length batch.old) × (bit < 2) }
    ensures value { result ≡ at + 516 }
    ensures batch_after { batch.new ≡ puts batch.old at (record_bytes (GW slot (zeros 64 ++ turn_blocks 7 bit))) }
{
    base_codec::put_group_write_mark(batch, at);
    base_codec::put_number(batch, at + 2, 2, slot);
    base_areas::put_unused(batch, at + 4, bit);
    at + 516
}

// Appends the write of zeros to a home.
pub fn zero_home_write(batch: &mut [u8], at: usize, home: usize) -> usize
    requires { at + 68 ≤ length batch.old }
    ensures value { result ≡ at + 68 }
    ensures batch_after { batch.new ≡ puts batch.old at (record_bytes (HW home (zeros 64))) }
{
    base_codec::put_home_write_mark(batch, at);
    base_codec::put_number(batch, at + 2, 2, home as u64);
    base_codec::clear(batch, at + 4, 64);
    at + 68
}

// Appends the write of zeros to the header.
pub fn zero_header_write(batch: &mut [u8], at: usize) -> usize
    requires { at + 66 ≤ length batch.old }
    ensures value { result ≡ at + 66 }
    ensures batch_after { batch.new ≡ puts batch.old at (record_bytes (KW (zeros 64))) }
{
    base_codec::put_header_write_mark(batch, at);
    base_codec::clear(batch, at + 2, 64);
    at + 66
}
