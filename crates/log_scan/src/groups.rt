// What a group of the log says: whether it is valid, and its tags.
ghost use Rattle.std.specs.Prelude.{◌≡◌, ℕ, ◌+◌, ◌*◌, ◌^◌, ◌<◌, ◌≤◌, length, get_or};
ghost use Rattle.model.specs.Tag.{field, read_tag};
ghost use Rattle.model.specs.Layout.{group_tag, group_valid, word_there};

use model::Tag;

// What tag `k` of a group says at a position of a log that starts at position `base` and has `homes` homes.
pub fn tag_in(group: &[u8], k: usize, position: u64, base: u64, homes: u64) -> Tag
    requires { (length group.now ≡ 512) × (k < 7) }
    ensures { result ≡ read_tag (group_tag group.now k) position base homes }
{
    base_codec::read_tag(
        base_codec::number(group, 8 + 8 * k, 8),
        position,
        base,
        homes,
    )
}

// The word of tag `k` of a group if its data block has the turn of the group, else that of no entry.
pub fn word_there(group: &[u8], turn: u64, k: usize) -> u64
    requires { (length group.now ≡ 512) × (k < 7) }
    ensures { result ≡ word_there group.now turn k }
{
    if base_codec::top_bit(group, 64 + 64 * k) != turn {
        return 0;
    }
    base_codec::number(group, 8 + 8 * k, 8)
}

// What tag `k` of a group says if its data block has the turn of the group.
pub fn tag_there(group: &[u8], turn: u64, k: usize, position: u64, base: u64, homes: u64) -> Tag
    requires { (length group.now ≡ 512) × (k < 7) }
    ensures { result ≡ read_tag (word_there group.now turn k) position base homes }
{
    base_codec::read_tag(word_there(group, turn, k), position, base, homes)
}

// The distance back to its first entry that tag `k` of a group holds, used or not, if its data block has the turn of the group: what belongs to a
// transaction has it, so it is compared first.
pub fn back_in(group: &[u8], turn: u64, k: usize) -> u64
    requires { (length group.now ≡ 512) × (k < 7) }
    ensures { result ≡ field (word_there group.now turn k) 14 13 }
{
    base_codec::tag_back(word_there(group, turn, k))
}

// The words of a group's seven tags that are there, read in a row; `turn` is the group's.
pub fn tag_words(group: &[u8], turn: u64) -> [u64; 7]
    requires { length group.now ≡ 512 }
    ensures { (k : ℕ) → k < 7 → get_or result k 0 ≡ word_there group.now turn k }
{
    let mut words = [0u64; 7];
    let mut k: usize = 0;
    while k < 7 {
        words[k] = word_there(group, turn, k);
        k += 1;
    }
    words
}

// Whether the 512 bytes of a ring slot are a valid group with number `n`, in a log of `groups` groups from number `start` on.
pub fn group_valid(group: &[u8], groups: u64, start: u64, n: u64) -> bool
    requires { (length group.now ≡ 512) × (groups ≤ 1024) × (start ≤ 2 ^ 47) }
    ensures { result ≡ group_valid group.now groups start n }
{
    if !base_codec::has_group_head(group, 0, n) {
        return false;
    }
    if n < start {
        return false;
    }
    n < start + groups
}
