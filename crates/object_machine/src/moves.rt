// What the machine does at each stage (specs/Moves.antt has the table).
ghost use Rattle.std.specs.Prelude.{◌≡◌, ◌≤◌, get_or};
ghost use Rattle.model.specs.State.{under_way};
ghost use Rattle.object_machine.specs.Moves.{guarded, settled, at_stage, chosen, after, goes_further, full, held_back_by, possible, may_make_room, tells_holder, refuses, headed_at, called, gives_up_at, looks, more, uncalled};
ghost use Rattle.object_machine.specs.Next.{follows};

use crate::fields::{with_batch, with_condition, with_cursor, with_room, with_stage};
use crate::turns::{answers, done, load, moved, passes};
use crate::{Control, Moved};
use model::{Holder, State};

// The call that a stage makes, without a round under way and with one.
const CALL_AT: [u64; 19] = [0, 1, 2, 3, 4, 5, 6, 5, 7, 7, 11, 7, 11, 0, 7, 11, 8, 0, 11];

const CALL_IN_ROUND: [u64; 19] = [0, 1, 2, 3, 4, 5, 6, 5, 9, 9, 11, 9, 11, 9, 9, 11, 0, 10, 0];

// The stage behind a done call.
const AFTER: [u64; 19] = [
    0, 21, 22, 22, 22, 6, 22, 9, 9, 10, 23, 12, 24, 14, 15, 25, 17, 18, 25,
];

// A store that would become a list of rights, or a part of one, unasked.
fn guarded(c: Control, homes: u64) -> bool
    ensures { result ≡ guarded c homes }
{
    (c.writer == 0) & (8 <= c.home) & (c.home <= 11) & (12 <= homes) & (c.lists == 0)
}

// Whether all that is fenced is settled.
fn settled(st: State) -> bool
    ensures { result ≡ settled st }
{
    st.settled == st.fenced
}

fn in_round(st: State) -> bool
    ensures { result ≡ under_way st }
{
    1 <= st.round
}

fn at_stage(stage: u64, st: State) -> u64
    requires { stage ≤ 18 }
    ensures { result ≡ at_stage stage st }
{
    if in_round(st) {
        return CALL_IN_ROUND[stage as usize];
    }
    CALL_AT[stage as usize]
}

// The number of the call to make, 0 for none.
pub fn chosen(c: Control, st: State, homes: u64) -> u64
    ensures { result ≡ chosen c st homes }
{
    if c.stage > 18 {
        return 0;
    }
    if (c.stage == 3) & guarded(c, homes) {
        return 12;
    }
    if (c.stage == 16) & settled(st) {
        return 0;
    }
    at_stage(c.stage, st)
}

fn after(stage: u64) -> u64
    requires { stage ≤ 18 }
    ensures { result ≡ get_or after stage 0 }
{
    AFTER[stage as usize]
}

// A done call: its batch is carried out, and then comes the next stage; or the operation is done at once.
fn goes_on(c: Control, to: u64, figure: u64, size: u64) -> Moved
    ensures { result ≡ goes_further c to figure size }
{
    if (to == 22) & (size == 0) {
        return answers(c, 0, figure);
    }
    passes(with_batch(c, to, figure, size))
}

// The answer with which an operation's own call says that room is missing, 0 for none.
fn full(stage: u64) -> u64
    ensures { result ≡ full stage }
{
    if stage == 2 {
        return 17;
    }
    if stage == 5 {
        return 18;
    }
    if (stage == 3) | (stage == 4) {
        return 8;
    }
    0
}

// Whether the holder's transaction begins in the log's first group.
fn held_back(st: State, h: Holder) -> bool
    ensures { result ≡ held_back_by st h }
{
    (h.writer != 8) & (h.first / 7 == st.start)
}

// Whether room may help.
fn possible(c: Control, groups: u64) -> bool
    requires { groups ≤ 1024 }
    ensures { result ≡ possible c groups }
{
    (c.stage != 2) | ((1 <= c.number) & (c.number <= 7 * groups))
}

fn may_make_room(c: Control, groups: u64, st: State, h: Holder) -> bool
    requires { groups ≤ 1024 }
    ensures { result ≡ may_make_room c groups st h }
{
    (c.tried == 0) & (c.room == 0) & possible(c, groups) & !held_back(st, h)
}

fn tells_holder(code: u64, h: Holder) -> u64
    ensures { result ≡ tells_holder code h }
{
    if (code == 8) | (code == 17) {
        return h.writer;
    }
    0
}

// A refusal: room is made once, where it may help; else the operation is over.
fn refuses(c: Control, code: u64, groups: u64, st: State, h: Holder) -> Moved
    requires { groups ≤ 1024 }
    ensures { result ≡ refuses c code groups st h }
{
    if (code == full(c.stage)) & may_make_room(c, groups, st, h) {
        return passes(with_room(c, 7, st.start));
    }
    if (c.stage == 7) & (code == 18) {
        return passes(with_stage(c, 8));
    }
    answers(c, code, tells_holder(code, h))
}

// The groups of an opening's log have no first words to wait for.
fn headed(c: Control, st: State) -> u64
    ensures { result ≡ headed_at c st }
{
    if c.stage == 1 {
        return st.next;
    }
    c.headed
}

// A stage with a call, by what the call answered and left.
fn called(c: Control, code: u64, figure: u64, size: u64, groups: u64, st: State, h: Holder) -> Moved
    requires { (c.stage ≤ 18) × (groups ≤ 1024) }
    ensures { result ≡ called c code figure size groups st h }
{
    if code == 0 {
        let d = with_cursor(c, c.at, headed(c, st), c.step);
        return goes_on(d, after(c.stage), figure, size);
    }
    refuses(c, code, groups, st, h)
}

// Room was made for nothing.
fn gives_up(c: Control, h: Holder) -> Moved
    ensures { result ≡ gives_up_at c h }
{
    let code = full(c.op);
    answers(c, code, tells_holder(code, h))
}

// Has the start moved?
fn looks(c: Control, st: State, h: Holder) -> Moved
    ensures { result ≡ looks c st h }
{
    if st.start != c.from {
        return passes(with_stage(c, c.op));
    }
    if (c.stage == 23) & !settled(st) {
        return passes(with_stage(c, 11));
    }
    gives_up(c, h)
}

fn more(st: State) -> u64
    ensures { result ≡ more st }
{
    if in_round(st) | !settled(st) {
        return 1;
    }
    0
}

// A stage without a call; `log` and `area` are the bytes of the two areas.
fn uncalled(c: Control, log: u64, area: u64, st: State, h: Holder) -> Moved
    ensures { result ≡ uncalled c log area st h }
{
    if c.stage == 19 {
        return moved(with_stage(c, 20), load(0, log));
    }
    if c.stage == 20 {
        return moved(with_stage(c, 1), load(1, area));
    }
    if c.stage == 21 {
        return moved(with_condition(c, 2, 0), done(0, c.figure));
    }
    if c.stage == 22 {
        return answers(c, 0, c.figure);
    }
    if c.stage == 25 {
        return answers(c, 0, more(st));
    }
    looks(c, st, h)
}

// What follows a stage, by what its call answered and left.
pub fn follows(
    c: Control,
    code: u64,
    figure: u64,
    size: u64,
    groups: u64,
    log: u64,
    area: u64,
    st: State,
    h: Holder,
) -> Moved
    requires { groups ≤ 1024 }
    ensures { result ≡ follows c code figure size groups log area st h }
{
    if c.stage <= 18 {
        return called(c, code, figure, size, groups, st, h);
    }
    uncalled(c, log, area, st, h)
}
