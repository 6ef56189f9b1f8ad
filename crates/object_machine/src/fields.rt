// The control block: read, written, changed.
ghost use Rattle.std.specs.Prelude.{◌≡◌, length};
ghost use Rattle.object_machine.specs.Control.{control_of, put_numbers, first_fields, middle_fields, last_fields, put_control, known, fresh, with_stage, with_condition, with_batch, with_cursor, with_ask, with_room};

use crate::Control;

// Reads the numbers of a control block.
pub fn read_control(s: &[u8]) -> Control
    requires { length s.now ≡ 256 }
    ensures { result ≡ control_of s.now }
{
    let condition = base_codec::number(s, 0, 8);
    let error = base_codec::number(s, 8, 8);
    let stage = base_codec::number(s, 16, 8);
    let op = base_codec::number(s, 24, 8);
    let writer = base_codec::number(s, 32, 8);
    let home = base_codec::number(s, 40, 8);
    let number = base_codec::number(s, 48, 8);
    let tried = base_codec::number(s, 56, 8);
    let from = base_codec::number(s, 64, 8);
    let figure = base_codec::number(s, 72, 8);
    let size = base_codec::number(s, 80, 8);
    let at = base_codec::number(s, 88, 8);
    let headed = base_codec::number(s, 96, 8);
    let step = base_codec::number(s, 104, 8);
    let landing = base_codec::number(s, 112, 8);
    let room = base_codec::number(s, 120, 8);
    let lists = base_codec::number(s, 128, 8);
    Control {
        condition,
        error,
        stage,
        op,
        writer,
        home,
        number,
        tried,
        from,
        figure,
        size,
        at,
        headed,
        step,
        landing,
        room,
        lists,
    }
}

fn set_first(s: &mut [u8], c: Control)
    requires { length s.old ≡ 256 }
    ensures { s.new ≡ put_numbers s.old 0 (first_fields c) }
{
    base_codec::put_number(s, 0, 8, c.condition);
    base_codec::put_number(s, 8, 8, c.error);
    base_codec::put_number(s, 16, 8, c.stage);
    base_codec::put_number(s, 24, 8, c.op);
    base_codec::put_number(s, 32, 8, c.writer);
    base_codec::put_number(s, 40, 8, c.home)
}

fn set_middle(s: &mut [u8], c: Control)
    requires { length s.old ≡ 256 }
    ensures { s.new ≡ put_numbers s.old 48 (middle_fields c) }
{
    base_codec::put_number(s, 48, 8, c.number);
    base_codec::put_number(s, 56, 8, c.tried);
    base_codec::put_number(s, 64, 8, c.from);
    base_codec::put_number(s, 72, 8, c.figure);
    base_codec::put_number(s, 80, 8, c.size);
    base_codec::put_number(s, 88, 8, c.at)
}

fn set_last(s: &mut [u8], c: Control)
    requires { length s.old ≡ 256 }
    ensures { s.new ≡ put_numbers s.old 96 (last_fields c) }
{
    base_codec::put_number(s, 96, 8, c.headed);
    base_codec::put_number(s, 104, 8, c.step);
    base_codec::put_number(s, 112, 8, c.landing);
    base_codec::put_number(s, 120, 8, c.room);
    base_codec::put_number(s, 128, 8, c.lists)
}

// Writes the numbers of a control block, and leaves the rest of it as it was.
pub fn set_control(s: &mut [u8], c: Control)
    requires { length s.old ≡ 256 }
    ensures { s.new ≡ put_control s.old c }
{
    set_first(s, c);
    set_middle(s, c);
    set_last(s, c)
}

// Whether these are the numbers of a control block that a call has made.
pub fn known(c: Control) -> bool
    ensures { result ≡ known c }
{
    (1 <= c.condition) & (c.condition <= 3) & (c.stage <= 25)
}

// A store that is closed, with nothing under way.
pub fn fresh(landing: u64, room: u64, lists: u64) -> Control
    ensures { result ≡ fresh landing room lists }
{
    Control {
        condition: 1,
        error: 0,
        stage: 0,
        op: 0,
        writer: 0,
        home: 0,
        number: 0,
        tried: 0,
        from: 0,
        figure: 0,
        size: 0,
        at: 0,
        headed: 0,
        step: 0,
        landing,
        room,
        lists,
    }
}

// The next stage.
pub fn with_stage(c: Control, stage: u64) -> Control
    ensures { result ≡ with_stage c stage }
{
    let mut d = c;
    d.stage = stage;
    d
}

// Nothing is under way.
pub fn with_condition(c: Control, condition: u64, error: u64) -> Control
    ensures { result ≡ with_condition c condition error }
{
    let mut d = c;
    d.condition = condition;
    d.error = error;
    d.stage = 0;
    d.size = 0;
    d.at = 0;
    d.step = 0;
    d
}

// A batch in hand, and the stage that comes behind it.
pub fn with_batch(c: Control, stage: u64, figure: u64, size: u64) -> Control
    ensures { result ≡ with_batch c stage figure size }
{
    let mut d = c;
    d.stage = stage;
    d.figure = figure;
    d.size = size;
    d.at = 0;
    d.step = 0;
    d
}

// How far the batch has been handed out.
pub fn with_cursor(c: Control, at: u64, headed: u64, step: u64) -> Control
    ensures { result ≡ with_cursor c at headed step }
{
    let mut d = c;
    d.at = at;
    d.headed = headed;
    d.step = step;
    d
}

// An operation that begins with a stage.
pub fn with_ask(c: Control, condition: u64, stage: u64, writer: u64, home: u64, n: u64) -> Control
    ensures { result ≡ with_ask c condition stage writer home n }
{
    Control {
        condition,
        error: 0,
        stage,
        op: stage,
        writer,
        home,
        number: n,
        tried: 0,
        from: 0,
        figure: 0,
        size: 0,
        at: 0,
        headed: c.headed,
        step: 0,
        landing: c.landing,
        room: c.room,
        lists: c.lists,
    }
}

// Room is made, from the log's start of now on.
pub fn with_room(c: Control, stage: u64, from: u64) -> Control
    ensures { result ≡ with_room c stage from }
{
    let mut d = c;
    d.stage = stage;
    d.tried = 1;
    d.from = from;
    d
}
