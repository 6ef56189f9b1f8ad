// What a line of the script asks for.
//
// A field stands after exactly one space, and a line ends with its last field. Leading zeros are fine. A line that is empty, that
// has too few or too many fields, or a field that is no number or too large, is malformed; so is one with any other letter.
#![tactic(auto)]

mod text;

ghost use Rattle.std.specs.Prelude.{◌≡◌, unwrap_or};
ghost use Rattle.prog_lines.specs.Line.{bare_line, writer_line, store_line, line_of};
ghost use Rattle.prog_lines.specs.declared.Line.TheVariants.{Malformed};

use text::number;
pub use text::until;

#[derive(Drop)]
pub enum Line {
    Begin(u64),
    // Writer, home and the byte that fills the block.
    Store(u64, u64, u8),
    Commit(u64),
    Flush,
    Settle,
    Trim,
    Malformed,
}

// A line of one letter and nothing else.
fn bare(letter: u8) -> Line
    ensures { result ≡ bare_line letter }
{
    match letter {
        b'f' => Line::Flush,
        b'w' => Line::Settle,
        b't' => Line::Trim,
        _ => Line::Malformed,
    }
}

// The rest of the line `b W` or `c W`.
fn of_writer(letter: u8, text: &[u8]) -> Line
    ensures { result ≡ writer_line letter text.now }
{
    match number(text) {
        None => Line::Malformed,
        Some(writer) => {
            if letter == b'b' {
                Line::Begin(writer)
            } else {
                Line::Commit(writer)
            }
        }
    }
}

// The rest of the line `s W HOME FILL`, if it is one.
fn of_store(text: &[u8]) -> Option<Line>
    ensures { unwrap_or result Malformed ≡ store_line text.now }
{
    let first = until(text, 0, b' ');
    if first == text.len() {
        return None;
    }
    let second = until(text, first + 1, b' ');
    if second == text.len() {
        return None;
    }
    let writer = number(&text[..first])?;
    let home = number(&text[first + 1..second])?;
    let fill = number(&text[second + 1..])?;
    Some(Line::Store(writer, home, u8::try_from(fill).ok()?))
}

// Reads a line, without its line end.
pub fn parse(line: &[u8]) -> Line
    ensures { result ≡ line_of line.now }
{
    match line {
        [] => Line::Malformed,
        [letter] => bare(*letter),
        [letter, b' ', text @ ..] => match letter {
            b'b' | b'c' => of_writer(*letter, text),
            b's' => of_store(text).unwrap_or(Line::Malformed),
            _ => Line::Malformed,
        },
        _ => Line::Malformed,
    }
}
