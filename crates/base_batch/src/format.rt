// The batch that formats the areas: zeros to the header, all groups unused and all homes zeros, then the header with start 0, fences between.
ghost use Rattle.std.specs.Prelude.{◌≡◌, ◌+◌, ◌*◌, ◌<◌, ◌≤◌, length};
ghost use Rattle.model.specs.Bytes.{puts};
ghost use Rattle.model.specs.Batch.{batch_bytes};
ghost use Rattle.model.specs.Effects.{blank_writes, zero_homes, formatted};

use crate::records::{fence, header_write, unused_write, zero_header_write, zero_home_write};

// Appends the writes of all ring slots as unused, rising, for a log that starts at group `start`.
pub fn all_groups(batch: &mut [u8], at: usize, start: u64, groups: u64) -> usize
    requires { (at + 516 * groups ≤ length batch.old) × (0 < groups) }
    ensures value { result ≡ at + 516 * groups }
    ensures batch_after { batch.new ≡ puts batch.old at (batch_bytes (blank_writes groups start groups)) }
{
    let first = start % groups;
    let turn = start / groups % 2;
    let mut to = at;
    let mut slot: u64 = 0;
    while slot < groups {
        to = unused_write(batch, to, slot, base_areas::unused_bit(slot, first, turn));
        slot += 1;
    }
    to
}

// Appends the writes of zeros to the first `homes` homes, rising.
pub fn all_homes(batch: &mut [u8], at: usize, homes: usize) -> usize
    requires { at + 68 * homes ≤ length batch.old }
    ensures value { result ≡ at + 68 * homes }
    ensures batch_after { batch.new ≡ puts batch.old at (batch_bytes (zero_homes homes)) }
{
    let mut to = at;
    let mut home: usize = 0;
    while home < homes {
        to = zero_home_write(batch, to, home);
        home += 1;
    }
    to
}

// Writes the whole batch of format from the buffer's first byte on.
pub fn format_batch(batch: &mut [u8], groups: u64, homes: u64) -> usize
    requires { (138 + 516 * groups + 68 * homes ≤ length batch.old) × (0 < groups) }
    ensures value { (result ≡ length (batch_bytes (formatted groups homes))) × (result ≡ 138 + 516 * groups + 68 * homes) }
    ensures batch_after { batch.new ≡ puts batch.old 0 (batch_bytes (formatted groups homes)) }
{
    let mut at = zero_header_write(batch, 0);
    at = fence(batch, at);
    at = all_groups(batch, at, 0, groups);
    at = all_homes(batch, at, homes as usize);
    at = fence(batch, at);
    at = header_write(batch, at, 0, groups, homes);
    fence(batch, at)
}
