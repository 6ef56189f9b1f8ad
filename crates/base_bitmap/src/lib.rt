// Words of 64 bits: which are set, from the lowest on; and maps of one bit for each home, n words for 64 × n homes, as specs/ defines them.
#![tactic(auto)]

ghost use Rattle.std.specs.Prelude.{◌≡◌, true, ◌||◌, ◌∷◌, ℕ, ◌*◌, ◌≤◌, ◌<◌, eqb, length, drop};
ghost use Rattle.std.specs.Int.Count.{count_trailing_zeros};
ghost use Rattle.base_bitmap.specs.Marks.{bit, marks, with_mark, bits_of};

// Marks `i`, and leaves every other mark as it was.
pub fn mark(ws: &mut [u64], i: usize)
    requires { i < 64 * length ws.old }
    ensures ws_after { ws.new ≡ with_mark ws.old i }
    ensures by_index { (j : ℕ) → marks ws.new j ≡ (eqb i j || marks ws.old j) }
{
    ws[i >> 6] |= 1 << (i & 63);
}

// How many bits are set in a word, by its count of ones.
pub fn ones(w: u64) -> u64
    ensures { (result ≡ length (bits_of w)) × (result ≤ 64) }
{
    u64::count_ones(w) as u64
}

// The lowest bit that is set in a word, by its trailing zeros.
pub fn lowest(w: u64) -> usize
    requires { 0 < w }
    ensures { (bits_of w ≡ result ∷ drop 1 (bits_of w)) × (result < 64) × (result ≡ count_trailing_zeros 64 w) × (bit w result ≡ true) }
{
    u64::trailing_zeros(w) as usize
}

// The word without its lowest bit that is set: what is left to visit.
pub fn clear_lowest(w: u64) -> u64
    requires { 0 < w }
    ensures { (result < w) × (bits_of result ≡ drop 1 (bits_of w)) × ((j : ℕ) → (j ≡ count_trailing_zeros 64 w → ⊥) → bit result j ≡ bit w j) }
{
    w & (w - 1)
}
