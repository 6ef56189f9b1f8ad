// Homes and ranges of homes: first home and number of homes, 16 bits each.
ghost use Rattle.std.specs.Prelude.{◌≡◌, ◌+◌, ◌%◌, ◌^◌, ◌≤◌, length};
ghost use Rattle.model.specs.Rights.{of_list, in_range, in_ranges};
ghost use Rattle.log_shown.specs.There.{entry_from};

// Whether a home is one of the list's own.
pub fn of_list(home: u64) -> bool
    ensures { result ≡ of_list home }
{
    if home < 8 {
        return false;
    }
    home < 12
}

// A home less the first of a range, modulo 2^64.
fn wrapped_difference(home: u64, first: u64) -> u64
    ensures { (result + first) % 2 ^ 64 ≡ home }
{
    if first <= home {
        return home - first;
    }
    home + (0xffff_ffff_ffff_ffff - first) + 1
}

// Whether a home lies in the range at index `at`: a home before it wraps to a difference that no range has.
fn in_range(s: &[u8], at: usize, home: u64) -> bool
    requires { at + 4 ≤ length s.now }
    ensures { result ≡ in_range s.now at home }
{
    let first = base_codec::number(s, at, 2);
    let n = base_codec::number(s, at + 2, 2);
    wrapped_difference(home, first) < n
}

// Whether a home lies in one of the four ranges from index `at` on.
pub fn in_ranges(s: &[u8], at: usize, home: u64) -> bool
    requires { at + 16 ≤ length s.now }
    ensures { result ≡ in_ranges s.now at home 4 }
{
    if in_range(s, at, home) {
        return true;
    }
    if in_range(s, at + 4, home) {
        return true;
    }
    if in_range(s, at + 8, home) {
        return true;
    }
    in_range(s, at + 12, home)
}

// Whether a home lies in the last range of the block that the entry with its block at index `place` of the log gives: it ends with the turn bit.
fn in_last(log: &[u8], place: usize, home: u64) -> bool
    requires { (128 ≤ place) × (place + 64 ≤ length log.now) }
    ensures { result ≡ in_range (entry_from log.now place) 60 home }
{
    let first = base_codec::number(log, place + 60, 2);
    if home < first {
        return false;
    }
    let n = base_codec::number(log, place + 62, 2) % 0x8000;
    if home < first + n {
        return true;
    }
    let bit = log_shown::displaced_at(log, place);
    home < first + (n + 0x8000 * bit)
}

// Whether a home lies in one of the four ranges from index `o` on of that block: all but a block's last range stand in the log as they are.
pub fn in_entry(log: &[u8], place: usize, o: usize, home: u64) -> bool
    requires { (128 ≤ place) × (place + 64 ≤ length log.now) × (o + 16 ≤ 64) }
    ensures { result ≡ in_ranges (entry_from log.now place) o home 4 }
{
    if in_range(log, place + o, home) {
        return true;
    }
    if in_range(log, place + (o + 4), home) {
        return true;
    }
    if in_range(log, place + (o + 8), home) {
        return true;
    }
    if o < 48 {
        return in_range(log, place + (o + 12), home);
    }
    in_last(log, place, home)
}
