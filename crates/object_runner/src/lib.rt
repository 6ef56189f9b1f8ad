// The runner: from a batch and how far it has been handed out to the next action for a driver. No callback, no heap, no table.
#![tactic(auto)]

mod records;

ghost use Rattle.std.specs.Prelude.{◌≡◌, ◌+◌, ◌≤◌, length, drop};
ghost use Rattle.model.specs.Bytes.{part, same};
ghost use Rattle.object_runner.specs.Next.{cursor, record_action, asked, next_action};

use records::{bare, fence_action, group_action, header_action, home_action};

// How far a batch has been handed out: its records before index `at`; the first words of all groups below `headed`; and, of the record at `at`,
// how many of its steps (`stage`), where it takes more than one.
#[derive(Clone, Copy)]
pub struct Cursor {
    pub at: u64,
    pub headed: u64,
    pub stage: u64,
}

// What to do next. `kind`: 0 all is done, 1 write, 2 fence, 3 refused, with nothing done. A write: `size` bytes at `offset` of `area` (0 the log,
// 1 the homes), which lie in `source` (0 the batch, 1 the log copy) from index `from` on. Then the cursor to ask with when it has been carried out.
#[repr(C)]
#[derive(Clone, Copy)]
pub struct Action {
    pub kind: u64,
    pub area: u64,
    pub offset: u64,
    pub size: u64,
    pub source: u64,
    pub from: u64,
    pub at: u64,
    pub headed: u64,
    pub stage: u64,
}

// Whether the two bytes of `mark` stand at index `at`.
fn has_mark(s: &[u8], at: usize, mark: &[u8]) -> bool
    requires { (at + 2 ≤ length s.now) × (length mark.now ≡ 2) }
    ensures { result ≡ same (part s.now at 2) mark.now }
{
    if s[at] != mark[0] {
        return false;
    }
    if s[at + 1] != mark[1] {
        return false;
    }
    true
}

// The action for the record at the cursor, by its mark.
fn record_action(batch: &[u8], words: bool, groups: u64, homes: u64, next: u64, c: Cursor) -> Action
    requires { (c.at + 2 ≤ length batch.now) × (1 ≤ groups) × (groups ≤ 1024) }
    ensures { result ≡ record_action words groups homes next (drop c.at batch.now) c }
{
    let at = c.at as usize;
    if has_mark(batch, at, b"GW") {
        return group_action(batch, words, groups, c);
    }
    if has_mark(batch, at, b"HW") {
        return home_action(batch, homes, c);
    }
    if has_mark(batch, at, b"KW") {
        return header_action(batch, words, c);
    }
    if has_mark(batch, at, b"FN") {
        return fence_action(words, groups, next, c);
    }
    bare(3, c)
}

// Whether all that is told can be meant: a medium, the groups of a store, and a cursor in a batch of `size` bytes.
fn asked(landing: u64, groups: u64, next: u64, size: u64, c: Cursor) -> bool
    ensures { result ≡ asked landing groups next size c }
{
    if landing > 1 {
        return false;
    }
    if groups < 1 {
        return false;
    }
    if groups > 1024 {
        return false;
    }
    if c.at > size {
        return false;
    }
    if c.headed > next {
        return false;
    }
    c.stage <= 2
}

// The next action of a batch. `landing` is what the medium keeps whole (0 words of 8 bytes, 1 blocks of 64), `next` the number of the next group that
// has not been submitted. Whatever is asked: a batch that is none, or a cursor that no batch has, is refused. [S-85]
#[unsafe(no_mangle)]
pub extern "C" fn kagutin_next_action(
    batch: &[u8],
    landing: u64,
    groups: u64,
    homes: u64,
    next: u64,
    at: u64,
    headed: u64,
    stage: u64,
) -> Action
    ensures { result ≡ next_action landing groups homes next batch.now (cursor at headed stage) }
{
    let c = Cursor { at, headed, stage };
    let size = batch.len() as u64;
    if !asked(landing, groups, next, size, c) {
        return bare(3, c);
    }
    if at == size {
        return bare(0, c);
    }
    if size - at < 2 {
        return bare(3, c);
    }
    record_action(batch, landing == 0, groups, homes, next, c)
}
