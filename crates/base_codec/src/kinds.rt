// What kind of entry a tag's word holds: its used and closing bits and its zero bits by one comparison, its home by another.
ghost use Rattle.std.specs.Prelude.{◌≡◌, ◌&&◌, ℕ, ◌+◌, eqb, leb};
ghost use Rattle.model.specs.Tag.{entry_word, field, home_field};

// Whether a word holds an entry that does not close its transaction, whatever its home and its distance back.
pub fn is_plain(word: u64) -> bool
    ensures { result ≡ (eqb (field word 0 1) 1 && eqb (field word 58 6) 0 && eqb (field word 1 1) 0 && eqb (field word 27 26) 0) }
{
    word & 0xfc1f_ffff_f800_0003 == 1
}

// Whether a word holds a closing entry, whatever its numbers.
pub fn is_closing(word: u64) -> bool
    ensures { result ≡ (eqb (field word 0 1) 1 && eqb (field word 58 6) 0 && eqb (field word 1 1) 1) }
{
    word & 0xfc00_0000_0000_0003 == 3
}

// Whether the home in a used word is one of those there are; `above` is the word of an entry for the first home that there is not. The
// home's bits lie in both words in the order of their weight, so they are compared where they are.
pub fn has_home(word: u64, above: u64) -> bool
    ensures { (homes : ℕ) → above ≡ entry_word homes 0 → field word 0 1 ≡ 1 → result ≡ leb (home_field word + 1) homes }
{
    word & 0x1e0_0000_0000_3ffd < above
}

// The distance back to the previous closing entry that a word holds.
pub fn tag_link(word: u64) -> u64
    ensures { result ≡ field word 27 13 }
{
    (word >> 27) & 0x1fff
}

// The number of entries that a word holds.
pub fn tag_count(word: u64) -> u64
    ensures { result ≡ field word 40 13 }
{
    (word >> 40) & 0x1fff
}
