// A block of 64 bytes tested for zeros, eight words in a row.
ghost use Rattle.std.specs.Prelude.{◌≡◌, ◌&&◌, ◌+◌, ◌≤◌, eqb, length};
ghost use Rattle.model.specs.Bytes.{part, number, zeros, same};
ghost use Rattle.log_shown.specs.There.{entry_from};

// The bits that are set in one of the four words from index `at` on.
fn or_words(s: &[u8], at: usize) -> u64
    requires { at + 32 ≤ length s.now }
    ensures { eqb result 0
        ≡ (eqb (number 8 s.now at) 0
        && (eqb (number 8 s.now (at + 8)) 0
        && (eqb (number 8 s.now (at + 16)) 0 && eqb (number 8 s.now (at + 24)) 0))) }
{
    let a = base_codec::number(s, at, 8);
    let b = base_codec::number(s, at + 8, 8);
    let c = base_codec::number(s, at + 16, 8);
    let d = base_codec::number(s, at + 24, 8);
    a | (b | (c | d))
}

// Whether the block from index `at` on is all zeros.
pub fn zero_block(s: &[u8], at: usize) -> bool
    requires { at + 64 ≤ length s.now }
    ensures { result ≡ same (part s.now at 64) (zeros 64) }
{
    let front = or_words(s, at);
    let back = or_words(s, at + 32);
    front | back == 0
}

// Whether the block that the entry with its block at index `place` of the log gives is all zeros: the turn bit is shifted out of its last
// word, and the bit that it displaced counts instead.
pub fn zero_entry(log: &[u8], place: usize) -> bool
    requires { (128 ≤ place) × (place + 64 ≤ length log.now) }
    ensures { result ≡ same (entry_from log.now place) (zeros 64) }
{
    let front = or_words(log, place);
    let back = or_words(log, place + 24);
    if front | back != 0 {
        return false;
    }
    let last = base_codec::number(log, place + 56, 8);
    let bit = log_shown::displaced_at(log, place);
    last << 1 | bit == 0
}
