// Turns: what goes to the driver, with what it leaves in the control block.
ghost use Rattle.std.specs.Prelude.{◌≡◌};
ghost use Rattle.object_machine.specs.Moves.{done, load, pass, moved, answers, passes};
ghost use Rattle.object_machine.specs.Next.{fails, handed, refusal};

use crate::fields::{with_condition, with_cursor, with_stage};
use crate::{Control, Moved, Turn};
use object_runner::Action;

// The error of a batch that cannot be read: -1000.
pub const BAD_BATCH: u64 = 0xffff_ffff_ffff_fc18;

// The operation is over.
pub fn done(code: u64, figure: u64) -> Turn
    ensures { result ≡ done code figure }
{
    Turn {
        kind: 0,
        area: 0,
        offset: 0,
        size: 0,
        source: 0,
        from: 0,
        code,
        figure,
    }
}

// A whole area is to be loaded.
pub fn load(area: u64, size: u64) -> Turn
    ensures { result ≡ load area size }
{
    Turn {
        kind: 3,
        area,
        offset: 0,
        size,
        source: 0,
        from: 0,
        code: 0,
        figure: 0,
    }
}

// Nothing for the driver.
pub fn pass() -> Turn
    ensures { result ≡ pass }
{
    Turn {
        kind: 4,
        area: 0,
        offset: 0,
        size: 0,
        source: 0,
        from: 0,
        code: 0,
        figure: 0,
    }
}

pub fn moved(control: Control, turn: Turn) -> Moved
    ensures { result ≡ moved control turn }
{
    Moved { control, turn }
}

// The operation is over, and nothing is under way.
pub fn answers(c: Control, code: u64, figure: u64) -> Moved
    ensures { result ≡ answers c code figure }
{
    moved(with_stage(c, 0), done(code, figure))
}

pub fn passes(c: Control) -> Moved
    ensures { result ≡ passes c }
{
    moved(c, pass())
}

// The driver has failed.
pub fn fails(c: Control, error: u64) -> Moved
    ensures { result ≡ fails c error }
{
    moved(with_condition(c, 3, error), done(65, error))
}

// A write or a fence of the runner; anything else is no record of a batch.
pub fn handed(c: Control, a: Action) -> Moved
    ensures { result ≡ handed c a }
{
    if (a.kind == 1) | (a.kind == 2) {
        let t = Turn {
            kind: a.kind,
            area: a.area,
            offset: a.offset,
            size: a.size,
            source: a.source,
            from: a.from,
            code: 0,
            figure: 0,
        };
        return moved(with_cursor(c, a.at, a.headed, a.stage), t);
    }
    fails(c, BAD_BATCH)
}

// A refusal by the store's condition; 65 tells the driver's error.
pub fn refusal(c: Control, code: u64) -> Turn
    ensures { result ≡ refusal c code }
{
    if code == 65 {
        return done(code, c.error);
    }
    done(code, 0)
}
