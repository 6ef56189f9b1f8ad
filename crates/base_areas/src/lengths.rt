// How many groups and homes an area of a length has, and whether the length is right.
ghost use Rattle.std.specs.Prelude.{◌≡◌};
ghost use Rattle.model.specs.Layout.{group_count, home_count, log_length_right, data_length_right};

use base_codec::{GROUP_SIZE, HEADER_SIZE, MAX_GROUPS};

// The number of groups in a log area of `len` bytes.
pub fn log_groups(len: usize) -> u64
    ensures { result ≡ group_count len }
{
    if len < 64 {
        return 0;
    }
    ((len - 64) / 512) as u64
}

// The number of homes in a data area of `len` bytes.
pub fn data_homes(len: usize) -> u64
    ensures { result ≡ home_count len }
{
    (len / 64) as u64
}

// Whether a log area may have `len` bytes: a header and 4 to 1,024 whole groups.
pub fn log_right(len: usize) -> bool
    ensures { result ≡ log_length_right len }
{
    let groups = log_groups(len);
    if groups < 4 {
        return false;
    }
    if groups > MAX_GROUPS {
        return false;
    }
    len == HEADER_SIZE + GROUP_SIZE * groups as usize
}

// Whether a data area may have `len` bytes: 1 to 65,535 whole homes.
pub fn data_right(len: usize) -> bool
    ensures { result ≡ data_length_right len }
{
    let homes = data_homes(len);
    if homes < 1 {
        return false;
    }
    if homes > 65535 {
        return false;
    }
    len == 64 * homes as usize
}
