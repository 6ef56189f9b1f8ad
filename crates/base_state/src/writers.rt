// The writers' records in the state strip: a mode of one byte among those of all eight, three numbers of eight bytes among those of all, and a held
// block of 64.
ghost use Rattle.std.specs.Prelude.{◌≡◌, ◌≤◌, ◌<◌, length};
ghost use Rattle.model.specs.State.{writer_offset, less_one, one_more_than, writer_of, set_writer, held_offset, set_held, idle, begun, holding, logging, is_open_now, holds, has_logged, first_for, count_for};

use model::Writer;

// Where the three numbers of writer `w` begin.
fn offset(w: usize) -> usize
    requires { w < 8 }
    ensures { (result ≡ writer_offset w) × (result ≤ 296) }
{
    128 + 24 * w
}

// Where the held block of writer `w` begins.
fn held_offset(w: usize) -> usize
    requires { w < 8 }
    ensures { (result ≡ held_offset w) × (result ≤ 768) }
{
    320 + 64 * w
}

// The count that is kept as `less`.
fn one_more(less: u64) -> u64
    ensures { result ≡ one_more_than less }
{
    if less == u64::MAX {
        return 0;
    }
    less + 1
}

// Reads the four numbers of writer `w`.
pub fn writer(s: &[u8], w: usize) -> Writer
    requires { (length s.now ≡ 1024) × (w < 8) }
    ensures { result ≡ writer_of s.now w }
{
    let at = offset(w);
    let mode = base_codec::byte(s, 104 + w);
    let home = base_codec::number(s, at, 8);
    let first = base_codec::number(s, at + 8, 8);
    let count = one_more(base_codec::number(s, at + 16, 8));
    Writer {
        mode,
        home,
        first,
        count,
    }
}

// A count as it is kept: less one, modulo 2^64.
fn less_one(count: u64) -> u64
    ensures { result ≡ less_one count }
{
    if count == 0 {
        return u64::MAX;
    }
    count - 1
}

// Stores `r` as the four numbers of writer `w`, and leaves the rest of the strip as it was.
pub fn set_writer(s: &mut [u8], w: usize, r: Writer)
    requires { (length s.old ≡ 1024) × (w < 8) }
    ensures { s.new ≡ set_writer s.old w r }
{
    let at = offset(w);
    base_codec::put_byte(s, 104 + w, r.mode);
    base_codec::put_number(s, at, 8, r.home);
    base_codec::put_number(s, at + 8, 8, r.first);
    base_codec::put_number(s, at + 16, 8, less_one(r.count));
}

// Stores `block` as the held block of writer `w`, and leaves the rest of the strip as it was.
pub fn set_held(s: &mut [u8], w: usize, block: &[u8])
    requires { (length s.old ≡ 1024) × (w < 8) × (length block.now ≡ 64) }
    ensures { s.new ≡ set_held s.old w block.now }
{
    let at = held_offset(w);
    base_codec::copy(s, at, block);
}

// The record of a writer with no open transaction.
pub fn idle() -> Writer
    ensures { result ≡ idle }
{
    Writer {
        mode: 0,
        home: 0,
        first: 0,
        count: 1,
    }
}

// The record of a writer whose open transaction holds nothing yet.
pub fn begun() -> Writer
    ensures { result ≡ begun }
{
    Writer {
        mode: 1,
        home: 0,
        first: 0,
        count: 1,
    }
}

// The record of a writer that holds a block for `home` and has logged nothing.
pub fn holding(home: u64) -> Writer
    ensures { result ≡ holding home }
{
    Writer {
        mode: 2,
        home,
        first: 0,
        count: 1,
    }
}

// The record of a writer that holds a block for `home` and has logged `count` entries from the position `first` on.
pub fn logging(home: u64, first: u64, count: u64) -> Writer
    ensures { result ≡ logging home first count }
{
    Writer {
        mode: 3,
        home,
        first,
        count,
    }
}

// Whether a writer has an open transaction.
pub fn is_open(r: Writer) -> bool
    ensures { result ≡ is_open_now r }
{
    1 <= r.mode
}

// Whether a writer holds a block.
pub fn holds(r: Writer) -> bool
    ensures { result ≡ holds r }
{
    2 <= r.mode
}

// Whether a writer has logged entries.
pub fn has_logged(r: Writer) -> bool
    ensures { result ≡ has_logged r }
{
    3 <= r.mode
}

// The position of the first entry of a writer's transaction whose next entry goes to `position`.
pub fn first_for(r: Writer, position: u64) -> u64
    ensures { result ≡ first_for r position }
{
    if has_logged(r) { r.first } else { position }
}

// How many entries a writer's transaction has logged.
pub fn count_for(r: Writer) -> u64
    ensures { result ≡ count_for r }
{
    if has_logged(r) { r.count } else { 0 }
}
