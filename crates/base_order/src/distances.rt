// Distances between numbers of 64 bits.
ghost use Rattle.std.specs.Prelude.{◌≡◌, ◌+◌, ◌^◌, ◌%◌};

// How far `x` lies above `low`, modulo 2^64: one test of it tells whether `x` lies between `low` and a number above it.
pub fn distance(x: u64, low: u64) -> u64
    ensures { (result + low) % 2 ^ 64 ≡ x }
{
    if low <= x {
        x - low
    } else {
        x + (u64::MAX - low) + 1
    }
}
