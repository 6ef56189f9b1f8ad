// Strips of 4-byte rows: a minute and millimetres, 16 bits each, lowest byte first.
ghost use Rattle.std.specs.Prelude.{◌≡◌, ◌+◌, ◌*◌, ◌%◌, ◌≤◌, ◌<◌, length, get_or};
ghost use Rattle.alone_gauges.specs.Readings.{readings, rising, acceptable};

// The number that the two bytes from index `at` on make.
// Stays beside the store's reading of bytes: the calls that need no store stand on no crate of it (docs/GAUGES.md).
pub fn two_bytes(s: &[u8], at: usize) -> u64
    requires { at + 2 ≤ length s.now }
    ensures { (result ≡ get_or s.now at 0 + 256 * get_or s.now (at + 1) 0) × (result < 65536) }
{
    u64::from(s[at]) + 256 * u64::from(s[at + 1])
}

// Whether the minutes of whole rows rise strictly.
fn rises(s: &[u8]) -> bool
    requires { length s.now % 4 ≡ 0 }
    ensures { result ≡ rising 0 (readings s.now) }
{
    let mut lowest: u64 = 0;
    for i in 0..s.len() / 4 {
        let minute = two_bytes(s, 4 * i);
        if minute < lowest {
            return false;
        }
        lowest = minute + 1;
    }
    true
}

// Whether a strip holds whole rows, no more than 1,440, whose minutes rise strictly.
#[tactic(auto, unfolding(crate::specs::Readings::acceptable))]
pub fn acceptable(s: &[u8]) -> bool
    ensures { result ≡ acceptable s.now }
{
    s.len().is_multiple_of(4) && s.len() <= 4 * 1440 && rises(s)
}
