// The action for each kind of record.
ghost use Rattle.std.specs.Prelude.{◌≡◌, ◌+◌, ◌^◌, ◌≤◌, ◌<◌, length, drop};
ghost use Rattle.object_runner.specs.Next.{bare, write, parts, group_action, home_action};
ghost use Rattle.object_runner.specs.Next.{wiping, whole_header, wipe_action, header_action, due, due_action, fence_action};

use crate::{Action, Cursor};

// An action without a write.
pub fn bare(kind: u64, c: Cursor) -> Action
    ensures { result ≡ bare kind c }
{
    Action {
        kind,
        area: 0,
        offset: 0,
        size: 0,
        source: 0,
        from: 0,
        at: c.at,
        headed: c.headed,
        stage: c.stage,
    }
}

fn write(area: u64, offset: u64, size: u64, source: u64, from: u64, c: Cursor) -> Action
    ensures { result ≡ write area offset size source from c }
{
    Action {
        kind: 1,
        area,
        offset,
        size,
        source,
        from,
        at: c.at,
        headed: c.headed,
        stage: c.stage,
    }
}

// Whether a group goes out without its first word: on words, unless that is zeros.
fn parts(batch: &[u8], words: bool, at: usize) -> bool
    requires { at + 516 ≤ length batch.now }
    ensures { result ≡ parts words (drop at batch.now) }
{
    if words {
        return !base_codec::all_zero(batch, at + 4, 8);
    }
    false
}

// A group; on words without its first word, unless that is zeros.
pub fn group_action(batch: &[u8], words: bool, groups: u64, c: Cursor) -> Action
    requires { (c.at + 2 ≤ length batch.now) × (groups ≤ 1024) }
    ensures { result ≡ group_action words groups (drop c.at batch.now) c }
{
    let at = c.at as usize;
    if batch.len() - at < 516 {
        return bare(3, c);
    }
    let slot = base_codec::number(batch, at + 2, 2);
    if slot >= groups {
        return bare(3, c);
    }
    let offset = 64 + 512 * slot;
    let from = c.at + 4;
    let past = Cursor {
        at: c.at + 516,
        headed: c.headed,
        stage: 0,
    };
    if parts(batch, words, at) {
        return write(0, offset + 8, 504, 0, from + 8, past);
    }
    write(0, offset, 512, 0, from, past)
}

// A home.
pub fn home_action(batch: &[u8], homes: u64, c: Cursor) -> Action
    requires { c.at + 2 ≤ length batch.now }
    ensures { result ≡ home_action homes (drop c.at batch.now) c }
{
    let at = c.at as usize;
    if batch.len() - at < 68 {
        return bare(3, c);
    }
    let home = base_codec::number(batch, at + 2, 2);
    if home >= homes {
        return bare(3, c);
    }
    let past = Cursor {
        at: c.at + 68,
        headed: c.headed,
        stage: 0,
    };
    write(1, 64 * home, 64, 0, c.at + 4, past)
}

// Whether a header's first word goes out before the rest: on words, if it is zeros.
fn wiping(batch: &[u8], words: bool, at: usize) -> bool
    requires { at + 66 ≤ length batch.now }
    ensures { result ≡ wiping words (drop at batch.now) }
{
    if words {
        return base_codec::all_zero(batch, at + 2, 8);
    }
    false
}

// A header at once.
fn whole_header(c: Cursor) -> Action
    requires { c.at + 66 < 2 ^ 64 }
    ensures { result ≡ whole_header c }
{
    let past = Cursor {
        at: c.at + 66,
        headed: c.headed,
        stage: 0,
    };
    write(0, 0, 64, 0, c.at + 2, past)
}

// A header without a mark: its first word, a fence, and then all of it.
fn wipe_action(c: Cursor) -> Action
    requires { c.at + 66 < 2 ^ 64 }
    ensures { result ≡ wipe_action c.stage c }
{
    if c.stage == 0 {
        let begun = Cursor {
            at: c.at,
            headed: c.headed,
            stage: 1,
        };
        return write(0, 0, 8, 0, c.at + 2, begun);
    }
    if c.stage == 1 {
        let fenced = Cursor {
            at: c.at,
            headed: c.headed,
            stage: 2,
        };
        return bare(2, fenced);
    }
    whole_header(c)
}

// A header.
pub fn header_action(batch: &[u8], words: bool, c: Cursor) -> Action
    requires { c.at + 2 ≤ length batch.now }
    ensures { result ≡ header_action words (drop c.at batch.now) c }
{
    let at = c.at as usize;
    if batch.len() - at < 66 {
        return bare(3, c);
    }
    if wiping(batch, words, at) {
        return wipe_action(c);
    }
    whole_header(c)
}

// Whether first words are due: on words, those of the groups from `headed` to below the next one.
fn due(words: bool, headed: u64, next: u64) -> bool
    ensures { result ≡ due words headed next }
{
    if words {
        return headed < next;
    }
    false
}

// First words are due: a fence, and then each, from the log copy.
fn due_action(groups: u64, c: Cursor) -> Action
    requires { (1 ≤ groups) × (groups ≤ 1024) × (c.headed + 1 < 2 ^ 64) }
    ensures { result ≡ due_action groups c }
{
    if c.stage == 0 {
        let begun = Cursor {
            at: c.at,
            headed: c.headed,
            stage: 1,
        };
        return bare(2, begun);
    }
    let offset = 64 + 512 * (c.headed % groups);
    let more = Cursor {
        at: c.at,
        headed: c.headed + 1,
        stage: 1,
    };
    write(0, offset, 8, 1, offset, more)
}

// A fence; where first words are due these come first.
pub fn fence_action(words: bool, groups: u64, next: u64, c: Cursor) -> Action
    requires { (c.at + 2 < 2 ^ 64) × (1 ≤ groups) × (groups ≤ 1024) }
    ensures { result ≡ fence_action words groups next c }
{
    if due(words, c.headed, next) {
        return due_action(groups, c);
    }
    let past = Cursor {
        at: c.at + 2,
        headed: c.headed,
        stage: 0,
    };
    bare(2, past)
}
