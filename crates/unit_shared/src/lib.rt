// What the calls on units share: how an event ends. Definitions and laws stand in specs and proofs.
#![tactic(auto)]

ghost use Rattle.std.specs.Prelude.{◌≡◌};
ghost use Rattle.unit_shared.specs.Unit.{lent_to, leaves, as_judged, stored};

use call_ask::Reply;

// Ends an event by its own answer: refused, or the unit's new blocks stored as one transaction.
pub fn finish(
    log: &mut [u8],
    area: &[u8],
    state: &mut [u8],
    newest: &mut [u8],
    blocks: &[u8],
    batch: &mut [u8],
    writer: u64,
    home: u64,
    code: u64,
) -> Reply
    ensures { leaves result.code result.figure result.size log.new area.now state.new newest.new
        batch.new
        ≡ stored (lent_to log.old area.now state.old newest.old batch.old) writer home
        (as_judged code blocks.now) }
{
    if code != 0 {
        return call_ask::refused(code);
    }
    kagutin::kagutin_transact(log, area, state, newest, blocks, batch, writer, home)
}
