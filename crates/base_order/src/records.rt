// Question 2's test of the writers' records. The modes are read as one word, and only writers are visited of whose mode a bit but the lowest is set.
ghost use Rattle.std.specs.Prelude.{◌≡◌, true, false, ℕ, ◌*◌, ◌/◌, ◌%◌, ◌≤◌, ◌<◌, length};
ghost use Rattle.model.specs.Bytes.{number};
ghost use Rattle.model.specs.State.{state_of, writer_of, writer_in_order, writers_in_order};
ghost use Rattle.base_state.specs.Order.{Live};

use crate::distances::distance;

// Whether the record of writer `t` / 8 is in order, which holds a block: its home is below D, and if it has logged entries, which bit `t` of twice the
// word of the modes tells, the positions since its first one are among those of the log, and hold its entries. Bit `t` of the word itself is its
// mode's second one, so that its numbers begin three bytes further on for each bit.
fn record_in_order(s: &[u8], homes: u64, low: u64, all: u64, twice: u64, t: usize) -> bool
    requires { (length s.now ≡ 1024) × Live (state_of s.now) low all × (homes ≡ (state_of s.now).homes) × (twice ≡ 2 * number 8 s.now 104)
        × (t < 64) × (t % 8 ≡ 1) × (2 ≤ (writer_of s.now (t / 8)).mode) × ((writer_of s.now (t / 8)).mode ≤ 3) }
    ensures { result ≡ writer_in_order (state_of s.now) (writer_of s.now (t / 8)) }
{
    let at = 3 * t + 125;
    if homes <= base_codec::number(s, at, 8) {
        return false;
    }
    if (twice >> t) % 2 == 0 {
        return true;
    }
    let since = distance(low + all, base_codec::number(s, at + 8, 8));
    if all < since {
        return false;
    }
    base_codec::number(s, at + 16, 8) < since
}

// Whether the records of all eight writers are in order, whatever is promised to them.
pub fn records_in_order(s: &[u8], homes: u64, low: u64, all: u64) -> bool
    requires { (length s.now ≡ 1024) × Live (state_of s.now) low all × (homes ≡ (state_of s.now).homes) }
    ensures { (result ≡ true → (w : ℕ) → w < 8 → true ≡ writer_in_order (state_of s.now) (writer_of s.now w))
        × (result ≡ false → false ≡ writers_in_order s.now (state_of s.now) 8) }
{
    let modes = base_codec::number(s, 104, 8);
    let mut left = modes & 0xfefe_fefe_fefe_fefe;
    if left == 0 {
        return true;
    }
    if modes & 0xfcfc_fcfc_fcfc_fcfc != 0 {
        return false;
    }
    let twice = 2 * modes;
    while left != 0 {
        let t = base_bitmap::lowest(left);
        if !record_in_order(s, homes, low, all, twice, t) {
            return false;
        }
        left = base_bitmap::clear_lowest(left);
    }
    true
}
