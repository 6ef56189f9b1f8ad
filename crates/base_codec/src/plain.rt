// A tag's word compared with `plain`, that of an entry for home 0 which does not close its transaction, by the bits in which the two
// differ: so an entry with a known distance back is read with one comparison.
ghost use Rattle.std.specs.Prelude.{◌≡◌, true, ◌≢◌, ℕ, ◌^◌, ◌<◌};
ghost use Rattle.model.specs.Tag.{entry_word, with_displaced, displaced, home_field, field};

// Whether a word is `plain` but for its home and displaced bit.
pub fn fits_plain(word: u64, plain: u64) -> bool
    ensures { result ≡ true → (back : ℕ) → plain ≡ entry_word 0 back → back < 2 ^ 13 → word
        ≡ with_displaced (entry_word (home_field word) back) (displaced word) }
{
    (word ^ plain) & 0xfc1f_ffff_ffff_c003 == 0
}

// The home in such a word. The bits that differ are the home's 2 to 13 and 53 to 56, and perhaps 57: shifted to their places and added,
// they are the home but for the bits from 16 on.
pub fn plain_home(word: u64, plain: u64) -> u64
    ensures { (home back bit : ℕ) → home < 2 ^ 16 → back < 2 ^ 13 → bit < 2 → plain ≡ entry_word 0 back → word
        ≡ with_displaced (entry_word home back) bit → result ≡ home }
{
    let apart = word ^ plain;
    ((apart >> 2) + (apart >> 41)) % 0x1_0000
}

// Whether a word holds another distance back than `plain`.
pub fn other_back(word: u64, plain: u64) -> bool
    ensures { result ≡ true → (back : ℕ) → plain ≡ entry_word 0 back → back < 2 ^ 13 → field word 14 13 ≢ back }
{
    (word ^ plain) & 0x7ff_c000 != 0
}
