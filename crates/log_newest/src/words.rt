// Commit's pass at one position: it is kept if an entry of the transaction stands there.
ghost use Rattle.std.specs.Prelude.{◌≡◌, true, false, ◌≢◌, ℕ, ◌+◌, ◌*◌, ◌≤◌, ◌<◌, length};
ghost use Rattle.model.specs.Bytes.{part};
ghost use Rattle.model.specs.Tag.{read_tag};
ghost use Rattle.model.specs.Layout.{top_bit, word_there};
ghost use Rattle.log_scan.specs.Members.{taking};
ghost use Rattle.log_newest.specs.Keeping.{keep_at, PlainFor};

use crate::near::near_home;
use crate::positions::keep;
use model::Tag;

// Keeps a position if `word`, that of its tag, is an entry of the transaction with first position `first`, whatever kind of entry. Its
// distance back is compared before all else.
pub fn keep_word(newest: &mut [u8], word: u64, position: u64, base: u64, homes: u64, first: u64)
    requires { (length newest.old ≡ 8 * homes) × (first ≤ position) }
    ensures { newest.new ≡ taking first keep_at position (read_tag word position base homes) newest.old }
{
    if base_codec::tag_back(word) != position - first {
        return;
    }
    match base_codec::read_tag(word, position, base, homes) {
        Tag::Nothing => {}
        Tag::Entry(home, _) => keep(newest, home as usize, position),
        Tag::Closing(home, _, _, _) => keep(newest, home as usize, position),
    }
}

// Whether the block from index `at` on has another top bit than `turn`, by the sign of its last byte.
fn other_turn(s: &[u8], at: usize, turn: u64) -> bool
    requires { (at + 64 ≤ length s.now) × (turn < 2) }
    ensures { (result ≡ true → top_bit (part s.now at 64) ≢ turn) × (result ≡ false → top_bit (part s.now at 64) ≡ turn) }
{
    (s[at + 63] ^ 128 * turn as u8) >= 128
}

// The same for tag `k` of a group, where it is the transaction's entry that does not close it, which is `plain` but for its home, or has
// another distance back; returns whether it is one of these. Only an entry of the transaction has its block's turn bit looked at.
fn keep_plain(
    group: &[u8],
    turn: u64,
    k: usize,
    plain: u64,
    position: u64,
    homes: u64,
    newest: &mut [u8],
) -> bool
    requires { (length group.now ≡ 512) × (k < 7) × (length newest.old ≡ 8 * homes) × (homes ≤ 65535) × (turn < 2) }
    ensures newest_unchanged { result ≡ false → newest.new ≡ newest.old }
    ensures newest_after { result ≡ true → (first base : ℕ) → PlainFor plain first base position → newest.new
        ≡ taking first keep_at position (read_tag (word_there group.now turn k) position base homes) newest.old }
{
    let word = base_codec::number(group, 8 + 8 * k, 8);
    if !base_codec::fits_plain(word, plain) {
        return base_codec::other_back(word, plain);
    }
    if other_turn(group, 64 + 64 * k, turn) {
        return true;
    }
    let home = base_codec::plain_home(word, plain);
    if home >= homes {
        return false;
    }
    keep(newest, home as usize, position);
    true
}

// The same, for a home below `near` by one comparison; where it is not, `keep_plain` sees to it.
pub fn keep_near(
    group: &[u8],
    turn: u64,
    k: usize,
    plain: u64,
    position: u64,
    near: u64,
    homes: u64,
    newest: &mut [u8],
) -> bool
    requires { (length group.now ≡ 512) × (k < 7) × (length newest.old ≡ 8 * homes) × (homes ≤ 65535) × (turn < 2) × (near ≤ homes)
        × (near ≤ 4096) }
    ensures newest_unchanged { result ≡ false → newest.new ≡ newest.old }
    ensures newest_after { result ≡ true → (first base : ℕ) → PlainFor plain first base position → newest.new
        ≡ taking first keep_at position (read_tag (word_there group.now turn k) position base homes) newest.old }
{
    let word = base_codec::number(group, 8 + 8 * k, 8);
    if base_codec::other_back(word, plain) {
        return true;
    }
    let home = near_home(word, plain);
    if home >= near {
        return keep_plain(group, turn, k, plain, position, homes, newest);
    }
    if other_turn(group, 64 + 64 * k, turn) {
        return true;
    }
    keep(newest, home as usize, position);
    true
}

// The same for every tag.
pub fn keep_entry(
    group: &[u8],
    turn: u64,
    k: usize,
    position: u64,
    base: u64,
    homes: u64,
    first: u64,
    newest: &mut [u8],
)
    requires { (length group.now ≡ 512) × (k < 7) × (length newest.old ≡ 8 * homes) × (homes ≤ 65535) × (base ≤ first)
        × (first ≤ position) × (position < first + 7168) × (turn < 2) }
    ensures { newest.new
        ≡ taking first keep_at position (read_tag (word_there group.now turn k) position base homes) newest.old }
{
    let plain = base_codec::entry_word(0, position - first);
    if keep_plain(group, turn, k, plain, position, homes, newest) {
        return;
    }
    let word = log_scan::word_there(group, turn, k);
    keep_word(newest, word, position, base, homes, first)
}
