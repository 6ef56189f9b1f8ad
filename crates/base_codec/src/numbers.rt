// Numbers of up to eight bytes, lowest byte first.
ghost use Rattle.std.specs.Prelude.{◌≡◌, ◌+◌, ◌^◌, ◌<◌, ◌≤◌, length};
ghost use Rattle.model.specs.Bytes.{number, put_number};

// The number that the byte at index `at` makes.
pub fn byte(s: &[u8], at: usize) -> u64
    requires { at < length s.now }
    ensures { (result ≡ number 1 s.now at) × (result < 256) }
{
    s[at] as u64
}

// The number that the two bytes from index `at` on make.
fn two_bytes(s: &[u8], at: usize) -> u64
    requires { at + 2 ≤ length s.now }
    ensures { (result ≡ number 2 s.now at) × (result < 256 ^ 2) }
{
    s[at] as u64 | (s[at + 1] as u64) << 8
}

// The number that the four bytes from index `at` on make.
fn four_bytes(s: &[u8], at: usize) -> u64
    requires { at + 4 ≤ length s.now }
    ensures { (result ≡ number 4 s.now at) × (result < 256 ^ 4) }
{
    two_bytes(s, at) | two_bytes(s, at + 2) << 16
}

// The number that the `k` bytes from index `at` on make, read byte by byte.
fn each_byte(s: &[u8], at: usize, k: usize) -> u64
    requires { (k ≤ 8) × (at + k ≤ length s.now) }
    ensures { (result ≡ number k s.now at) × (result < 256 ^ k) }
{
    let mut x: u64 = 0;
    let mut i = at + k;
    let mut j: usize = 0;
    while j < k {
        i -= 1;
        x = x * 256 + s[i] as u64;
        j += 1;
    }
    x
}

// The number that the `k` bytes from index `at` on make; it fits `k` bytes. The widths in use compile to one load or two.
pub fn number(s: &[u8], at: usize, k: usize) -> u64
    requires { (k ≤ 8) × (at + k ≤ length s.now) }
    ensures { (result ≡ number k s.now at) × (result < 256 ^ k) }
{
    if k == 8 {
        return four_bytes(s, at) | four_bytes(s, at + 4) << 32;
    }
    if k == 6 {
        return four_bytes(s, at) | two_bytes(s, at + 4) << 32;
    }
    if k == 2 {
        return two_bytes(s, at);
    }
    each_byte(s, at, k)
}

// Writes `v` as the byte at index `at`, and leaves the other bytes as they were.
pub fn put_byte(s: &mut [u8], at: usize, v: u64)
    requires { at < length s.old }
    ensures { s.new ≡ put_number 1 s.old at v }
{
    s[at] = (v % 256) as u8;
}

// Writes `v` as two bytes from index `at` on, and leaves the other bytes as they were.
fn put_two_bytes(s: &mut [u8], at: usize, v: u64)
    requires { at + 2 ≤ length s.old }
    ensures { s.new ≡ put_number 2 s.old at v }
{
    s[at] = (v % 256) as u8;
    s[at + 1] = (v / 256 % 256) as u8;
}

// Writes `v` as four bytes from index `at` on, and leaves the other bytes as they were.
fn put_four_bytes(s: &mut [u8], at: usize, v: u64)
    requires { at + 4 ≤ length s.old }
    ensures { s.new ≡ put_number 4 s.old at v }
{
    put_two_bytes(s, at, v);
    put_two_bytes(s, at + 2, v / 0x1_0000);
}

// Writes `v` as `k` bytes from index `at` on, byte by byte.
fn put_each_byte(s: &mut [u8], at: usize, k: usize, v: u64)
    requires { (k ≤ 8) × (at + k ≤ length s.old) }
    ensures { s.new ≡ put_number k s.old at v }
{
    let mut x = v;
    let mut i = at;
    let mut left = k;
    while left > 0 {
        s[i] = (x % 256) as u8;
        x = x / 256;
        i += 1;
        left -= 1;
    }
}

// Writes `v` as `k` bytes from index `at` on, and leaves the other bytes as they were. The widths in use compile to one store or two.
pub fn put_number(s: &mut [u8], at: usize, k: usize, v: u64)
    requires { (k ≤ 8) × (at + k ≤ length s.old) }
    ensures { s.new ≡ put_number k s.old at v }
{
    if k == 8 {
        put_four_bytes(s, at, v);
        put_four_bytes(s, at + 4, v / 0x1_0000_0000);
        return;
    }
    if k == 6 {
        put_four_bytes(s, at, v);
        put_two_bytes(s, at + 4, v / 0x1_0000_0000);
        return;
    }
    if k == 2 {
        put_two_bytes(s, at, v);
        return;
    }
    put_each_byte(s, at, k, v)
}
