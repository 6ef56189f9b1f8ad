// Runs the codec on the paper's tags, and on numbers and marks in a small buffer.
#![tactic(auto)]

ghost use Rattle.std.specs.Prelude.{◌≡◌};
ghost use Rattle.model.specs.Tag.{home_of};

use model::Tag;

// The home of a tag, 0 where it says nothing.
fn home(t: Tag) -> u64
    ensures { result ≡ home_of t }
{
    match t {
        Tag::Nothing => 0,
        Tag::Entry(h, _) => h,
        Tag::Closing(h, _, _, _) => h,
    }
}

// The words of the paper's three tags, of the highest home, and of the first tag with a displaced bit.
fn words() {
    check::expect(base_codec::entry_word(1, 0) == 5);
    check::expect(base_codec::commit_word(2, 1, 0, 2) == 2199023271947);
    check::expect(base_codec::commit_word(5, 2, 0, 3) == 3298534916119);
    check::expect(base_codec::entry_word(65534, 0) == 0x01e0_0000_0000_3ff9);
    check::expect(base_codec::with_displaced(5, 1) == 0x0200_0000_0000_0005);
}

// The same words read where they stand, one whose first entry would lie before the start, one for a home that a small station has not, and one with
// a zero bit set.
fn tags() {
    check::expect(home(base_codec::read_tag(5, 0, 0, 8)) == 1);
    check::expect(home(base_codec::read_tag(2199023271947, 1, 0, 8)) == 2);
    check::expect(home(base_codec::read_tag(3298534916119, 9, 7, 8)) == 5);
    check::expect(home(base_codec::read_tag(3298534916119, 8, 7, 8)) == 0);
    check::expect(home(base_codec::read_tag(0x01e0_0000_0000_3ff9, 0, 0, 65535)) == 65534);
    check::expect(home(base_codec::read_tag(0x01e0_0000_0000_3ff9, 0, 0, 4096)) == 0);
    check::expect(home(base_codec::read_tag(0x0200_0000_0000_0005, 0, 0, 8)) == 1);
    check::expect(home(base_codec::read_tag(0x0400_0000_0000_0005, 0, 0, 8)) == 0);
}

// A number of six bytes, written and read.
fn numbers() {
    let mut b = [0u8; 16];
    base_codec::put_number(&mut b, 2, 6, 0x0605_0403_0201);
    check::expect(b[2] == 1);
    check::expect(b[7] == 6);
    check::expect(base_codec::number(&b, 2, 6) == 0x0605_0403_0201);
}

// A mark, written and found, and zeros after it.
fn marks() {
    let mut b = [0u8; 16];
    base_codec::put_header_mark(&mut b, 0);
    check::expect(base_codec::has_header_mark(&b, 0));
    check::expect(base_codec::all_zero(&b, 2, 14));
}

// A run of bytes cleared, and one copied.
fn blocks() {
    let mut b = [7u8; 16];
    base_codec::clear(&mut b, 4, 8);
    check::expect(base_codec::all_zero(&b, 4, 8));
    base_codec::copy(&mut b, 14, b"ab");
    check::expect(b[15] == b'b');
}

fn main() {
    words();
    tags();
    numbers();
    marks();
    blocks();
}
