// Whether a tag is that of an entry for a given home.
ghost use Rattle.std.specs.Prelude.{◌≡◌, ◌&&◌, ℕ, ◌+◌, ◌^◌, ◌<◌, eqb};
ghost use Rattle.model.specs.Tag.{present, home_of, read_tag};

// Whether a word says `after` positions behind the log's start that an entry for a home is there. Its lowest bits and its highest, next to
// each other, are those of the home, with 2 more where it closes a transaction and 2^18 more where it displaced a bit.
fn fields_for(word: u64, home: u64, after: u64) -> bool
    requires { home < 2 ^ 16 }
    ensures { (base homes : ℕ) → home < homes → result
        ≡ (present (read_tag word (base + after) base homes) && eqb (home_of (read_tag word (base + after) base homes)) home) }
{
    if (word >> 14) % 0x2000 > after {
        return false;
    }
    let key = word % 0x4000 + 0x4000 * (word >> 53);
    let plain = 4 * home + 1;
    if key == plain + 2 {
        return 0 < (word >> 40) % 0x2000;
    }
    if key == plain + 0x4_0002 {
        return 0 < (word >> 40) % 0x2000;
    }
    if key == plain {
        return (word >> 27) % 0x400_0000 == 0;
    }
    if key != plain + 0x4_0000 {
        return false;
    }
    (word >> 27) % 0x400_0000 == 0
}

// The same. The word of an entry that does not close its transaction and displaced no bit has nothing above the distance back: that and its low bits
// are all that is compared.
pub fn is_entry_for(word: u64, home: u64, after: u64) -> bool
    requires { (after < 2 ^ 13) × (home < 2 ^ 16) }
    ensures { (base homes : ℕ) → home < homes → result
        ≡ (present (read_tag word (base + after) base homes) && eqb (home_of (read_tag word (base + after) base homes)) home) }
{
    if word >> 14 <= after {
        return word % 0x4000 == 4 * home + 1;
    }
    fields_for(word, home, after)
}
