// A tag's word compared with `plain`, that of an entry for home 0 which does not close its transaction, where the home is a near one, below 4,096: then
// the bits in which the two differ are the home's alone, in one row.
ghost use Rattle.std.specs.Prelude.{◌≡◌, ℕ, ◌^◌, ◌<◌, ◌≤◌};
ghost use Rattle.model.specs.Tag.{entry_word, with_displaced, displaced};

// The home in a word that is `plain` but for a near home and its displaced bit; of any other word a number from 4,096 on. The lowest two bits, which
// must not differ, go to the top.
pub fn near_home(word: u64, plain: u64) -> u64
    ensures { result < 4096 → (back : ℕ) → plain ≡ entry_word 0 back → back < 2 ^ 13 → word ≡ with_displaced (entry_word result back) (displaced word) }
{
    let apart = (word ^ plain) & 0xfdff_ffff_ffff_ffff;
    (apart >> 2) + (apart << 62)
}

// How many of the homes are near.
pub fn near_homes(homes: u64) -> u64
    ensures { (result ≤ homes) × (result ≤ 4096) }
{
    if homes < 4096 { homes } else { 4096 }
}
