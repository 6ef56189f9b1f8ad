// The same changes at the record's place, behind a reference.
ghost use Rattle.std.specs.Prelude.{◌≡◌, ◌+◌, ◌^◌, ◌<◌};
ghost use Rattle.model.specs.State.{idle, begun, count_for};
ghost use Rattle.base_writers.specs.Held.{held_for};

use crate::records::{abort, begin, hold};
use model::Writer;

// Begins a transaction in the record at `p`.
fn begin_at(p: &mut Writer)
    ensures { p.new ≡ begun }
{
    *p = begin(*p);
}

// Makes the record at `p` that of a writer that holds a block for `home`.
fn hold_at(p: &mut Writer, home: u64, position: u64)
    requires { count_for p.old + 1 < 2 ^ 64 }
    ensures { p.new ≡ held_for p.old home position }
{
    *p = hold(*p, home, position);
}

// Ends the transaction in the record at `p`.
fn abort_at(p: &mut Writer)
    ensures { p.new ≡ idle }
{
    *p = abort(*p);
}

// The record `r`, changed at its place by `begin_at`.
pub fn begun(r: Writer) -> Writer
    ensures { result ≡ begun }
{
    let mut x = r;
    begin_at(&mut x);
    x
}

// The record `r`, changed at its place by `hold_at`.
pub fn held(r: Writer, home: u64, position: u64) -> Writer
    requires { count_for r + 1 < 2 ^ 64 }
    ensures { result ≡ held_for r home position }
{
    let mut x = r;
    hold_at(&mut x, home, position);
    x
}

// The record `r`, changed at its place by `abort_at`.
pub fn aborted(r: Writer) -> Writer
    ensures { result ≡ idle }
{
    let mut x = r;
    abort_at(&mut x);
    x
}
