// The runner for C: the call of crates/object_runner with its contract.
#![tactic(auto)]

ghost use Rattle.std.specs.Prelude.{◌≡◌};
ghost use Rattle.object_runner.specs.Next.{cursor, next_action};

use object_runner::Action;

// The next action of a batch. `landing` is what the medium keeps whole (0 words of 8 bytes, 1 blocks of 64), `next` the number of the next group that
// has not been submitted. Whatever is asked: a batch that is none, or a cursor that no batch has, is refused.
#[unsafe(no_mangle)]
pub extern "C" fn kagutin_next_action(
    batch: &[u8],
    landing: u64,
    groups: u64,
    homes: u64,
    next: u64,
    at: u64,
    headed: u64,
    stage: u64,
) -> Action
    ensures { result ≡ next_action landing groups homes next batch.now (cursor at headed stage) }
{
    object_runner::kagutin_next_action(batch, landing, groups, homes, next, at, headed, stage)
}
