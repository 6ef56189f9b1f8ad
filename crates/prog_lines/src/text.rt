// Lines, fields and decimal numbers in the script's text.
ghost use Rattle.std.specs.Prelude.{◌≡◌, ◌+◌, ◌≤◌, length, drop, unwrap_or, IfSome, IsNone};
ghost use Rattle.prog_lines.specs.Text.{index_of, digit_of, decimal};

// The index of the first `stop` from `from` on, or the text's length.
pub fn until(text: &[u8], from: usize, stop: u8) -> usize
    requires { from ≤ length text.now }
    ensures { (result ≡ from + index_of stop (drop from text.now)) × (from ≤ result) × (result ≤ length text.now) }
{
    for i in from..text.len() {
        if text[i] == stop {
            return i;
        }
    }
    text.len()
}

// The value of a decimal digit.
fn digit(b: u8) -> Option<u64>
    ensures value { unwrap_or result 10 ≡ digit_of b }
    ensures small { IfSome result (λ d. d ≤ 9) }
{
    if b.is_ascii_digit() {
        Some((b - b'0') as u64)
    } else {
        None
    }
}

// The number up to 65,535 that the bytes spell in decimal, leading zeros or not.
pub fn number(text: &[u8]) -> Option<u64>
    ensures none { IsNone result → decimal text.now ≡ 65536 }
    ensures value { IfSome result (λ n. (n ≡ decimal text.now) × (n ≤ 65535)) }
{
    if text.is_empty() {
        return None;
    }
    let mut value = 0;
    for &b in text {
        value = 10 * value + digit(b)?;
        if value > 65535 {
            return None;
        }
    }
    Some(value)
}
