// The log's header: mark, six-byte start, two-byte numbers of groups and homes, 52 zeros.
ghost use Rattle.std.specs.Prelude.{◌≡◌, ◌+◌, ◌^◌, ◌<◌, ◌≤◌, length};
ghost use Rattle.model.specs.Bytes.{puts};
ghost use Rattle.model.specs.Layout.{header, header_start, header_right};

// Writes a header of 64 bytes from index `at` on, and leaves the other bytes as they were.
pub fn put_header(dst: &mut [u8], at: usize, start: u64, groups: u64, homes: u64)
    requires { at + 64 ≤ length dst.old }
    ensures { dst.new ≡ puts dst.old at (header start groups homes) }
{
    base_codec::put_header_mark(dst, at);
    base_codec::put_number(dst, at + 2, 6, start);
    base_codec::put_number(dst, at + 8, 2, groups);
    base_codec::put_number(dst, at + 10, 2, homes);
    base_codec::clear(dst, at + 12, 52)
}

// Whether the log begins with a header's mark, these numbers of groups and homes, and a header's zeros.
pub fn header_right(log: &[u8], groups: u64, homes: u64) -> bool
    requires { 64 ≤ length log.now }
    ensures { result ≡ header_right log.now groups homes }
{
    if !base_codec::has_header_mark(log, 0) {
        return false;
    }
    if base_codec::number(log, 8, 2) != groups {
        return false;
    }
    if base_codec::number(log, 10, 2) != homes {
        return false;
    }
    base_codec::all_zero(log, 12, 52)
}

// The start that the log's header holds; it fits six bytes.
pub fn header_start(log: &[u8]) -> u64
    requires { 64 ≤ length log.now }
    ensures { (result ≡ header_start log.now) × (result < 2 ^ 48) }
{
    base_codec::number(log, 2, 6)
}
