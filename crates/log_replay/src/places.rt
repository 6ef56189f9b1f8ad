// Places of the log by their offset from its start, where `slot` is the ring slot of the start.
ghost use Rattle.std.specs.Prelude.{◌≡◌, true, ℕ, ◌+◌, ◌*◌, ◌%◌, ◌^◌, ◌≤◌, ◌<◌, length};
ghost use Rattle.model.specs.Tag.{present, read_tag};
ghost use Rattle.model.specs.Layout.{entry_at, block_at, put_home};

use base_codec::{GROUP_SIZE, HEADER_SIZE};

// The ring slot that lies `n` slots after `slot`.
fn slot_after(slot: u64, n: u64, groups: u64) -> u64
    requires { (slot < groups) × (n < groups) × (groups ≤ 1024) }
    ensures { (result ≡ (slot + n) % groups) × (result < groups) }
{
    let next = slot + n;
    if next < groups { next } else { next - groups }
}

// The word of the tag at an offset, which says what the log does where there is an entry.
pub fn word_from(log: &[u8], groups: u64, start: u64, slot: u64, offset: u64) -> u64
    requires { (length log.now ≡ 64 + 512 * groups) × (groups ≤ 1024) × (0 < groups) × (start ≤ 2 ^ 47) × (offset < 7 * groups)
        × (slot ≡ start % groups) }
    ensures { (homes : ℕ) → present (entry_at log.now groups homes start (7 * start + offset)) ≡ true
        → read_tag result (7 * start + offset) (7 * start) homes ≡ entry_at log.now groups homes start (7 * start + offset) }
{
    let from = HEADER_SIZE + GROUP_SIZE * slot_after(slot, offset / 7, groups) as usize;
    let group = &log[from..from + GROUP_SIZE];
    base_codec::number(group, 8 + 8 * (offset % 7) as usize, 8)
}

// Copies the block that the entry at an offset gives to a home.
pub fn restore_block(
    log: &[u8],
    area: &mut [u8],
    groups: u64,
    start: u64,
    slot: u64,
    offset: u64,
    home: usize,
)
    requires { (length log.now ≡ 64 + 512 * groups) × (groups ≤ 1024) × (0 < groups) × (start ≤ 2 ^ 47) × (offset < 7 * groups)
        × (slot ≡ start % groups)
        × (64 * home + 64 ≤ length area.old) }
    ensures { area.new ≡ put_home area.old home (block_at log.now groups (7 * start + offset)) }
{
    let place = slot_after(slot, offset / 7, groups) as usize;
    base_areas::copy_entry(area, 64 * home, log, place, (offset % 7) as usize)
}
