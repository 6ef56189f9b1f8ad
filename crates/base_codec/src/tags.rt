// The 64-bit word of a tag: bit 0 used, bit 1 closing, bits 2 to 13 the home's low 12 bits, 14 to 26 distance back, 27 to 39 link, 40 to 52 count,
// 53 to 56 the home's high four bits, 57 the bit that the block's turn bit displaced.
ghost use Rattle.std.specs.Prelude.{◌≡◌, ◌^◌, ◌<◌};
ghost use Rattle.model.specs.Tag.{entry_word, closing_word, with_displaced, displaced, read_tag, field};

use model::Tag;

// The word of an entry that does not close its transaction. [S-12]
pub fn entry_word(home: u64, back: u64) -> u64
    requires { (home < 2 ^ 16) × (back < 2 ^ 13) }
    ensures { result ≡ entry_word home back }
{
    1 | (home & 0xfff) << 2 | back << 14 | (home >> 12) << 53
}

// The word of the entry that commits a transaction of `count` entries, with the distance `link` back to the previous commit entry. [S-12]
pub fn commit_word(home: u64, back: u64, link: u64, count: u64) -> u64
    requires { (home < 2 ^ 16) × (back < 2 ^ 13) × (link < 2 ^ 13) × (count < 2 ^ 13) }
    ensures { result ≡ closing_word home back link count }
{
    3 | (home & 0xfff) << 2 | back << 14 | link << 27 | count << 40 | (home >> 12) << 53
}

// A word with the bit that its block's turn bit displaced.
pub fn with_displaced(word: u64, bit: u64) -> u64
    requires { (word < 2 ^ 57) × (bit < 2) }
    ensures { result ≡ with_displaced word bit }
{
    word | bit << 57
}

// The displaced bit in a word.
pub fn displaced(word: u64) -> u64
    ensures { (result ≡ displaced word) × (result < 2) }
{
    (word >> 57) & 1
}

// The distance back to the first entry that a word holds, used or not.
pub fn tag_back(word: u64) -> u64
    ensures { result ≡ field word 14 13 }
{
    (word >> 14) & 0x1fff
}

// What a word says at a position of a log that starts at position `base` and has `homes` homes. [S-13]
pub fn read_tag(word: u64, position: u64, base: u64, homes: u64) -> Tag
    ensures { result ≡ read_tag word position base homes }
{
    if word & 1 == 0 {
        return Tag::Nothing;
    }
    if word >> 58 != 0 {
        return Tag::Nothing;
    }
    let home = (word >> 2) & 0xfff | ((word >> 53) & 0xf) << 12;
    if homes <= home {
        return Tag::Nothing;
    }
    let back = (word >> 14) & 0x1fff;
    if position < back {
        return Tag::Nothing;
    }
    let first = position - back;
    if first < base {
        return Tag::Nothing;
    }
    if (word >> 1) & 1 == 0 {
        if (word >> 27) & 0x3ff_ffff == 0 {
            return Tag::Entry(home, first);
        }
        return Tag::Nothing;
    }
    let count = (word >> 40) & 0x1fff;
    if count == 0 {
        return Tag::Nothing;
    }
    let link = (word >> 27) & 0x1fff;
    Tag::Closing(home, first, link, count)
}
