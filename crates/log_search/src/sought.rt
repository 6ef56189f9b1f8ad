// A group's tags compared with what the tag of the entry looked for has: its home's and its distance's bits in one comparison, whatever else the
// group says.
ghost use Rattle.std.specs.Prelude.{◌≡◌, true, ℕ, ◌+◌, ◌*◌, ◌^◌, ◌≤◌, ◌<◌, length};
ghost use Rattle.log_search.specs.Sought.{sought_bits, Other};

// The home's and the distance's bits of the word that an entry for a home has at a distance back, all others 0.
pub fn sought_bits(home: u64, back: u64) -> u64
    requires { (home < 2 ^ 16) × (back < 2 ^ 13) }
    ensures { (result ≡ sought_bits home back) × (result < 2 ^ 57) }
{
    base_codec::entry_word(home, back) - 1
}

// Whether tag `k` of a group holds another home or another distance back than those bits.
fn other_at(group: &[u8], k: usize, bits: u64) -> bool
    requires { (length group.now ≡ 512) × (k < 7) }
    ensures { result ≡ true → (home back : ℕ) → bits ≡ sought_bits home back → home < 2 ^ 16 → back < 2 ^ 13
        → Other group.now k home back }
{
    base_codec::number(group, 8 + 8 * k, 8) & 0x1e0_0000_07ff_fffc != bits
}

// Whether all seven do, where the distance is that of the first tag and one more for each after it.
pub fn none_sought(group: &[u8], bits: u64) -> bool
    requires { (length group.now ≡ 512) × (bits < 2 ^ 57) }
    ensures { result ≡ true → (home back : ℕ) → bits ≡ sought_bits home back → home < 2 ^ 16 → back + 6 < 2 ^ 13
        → (k : ℕ) → k < 7 → Other group.now k home (back + k) }
{
    if !other_at(group, 0, bits) {
        return false;
    }
    if !other_at(group, 1, bits + 0x4000) {
        return false;
    }
    if !other_at(group, 2, bits + 0x8000) {
        return false;
    }
    if !other_at(group, 3, bits + 0xc000) {
        return false;
    }
    if !other_at(group, 4, bits + 0x1_0000) {
        return false;
    }
    if !other_at(group, 5, bits + 0x1_4000) {
        return false;
    }
    other_at(group, 6, bits + 0x1_8000)
}
