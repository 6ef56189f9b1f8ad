// The ring slot and the turn that a pass over the log's groups keeps: one division for its first group, then a step for each group, up or down.
ghost use Rattle.std.specs.Prelude.{ℕ, ◌+◌, ◌-◌, ◌<◌, ◌≤◌};
ghost use Rattle.log_scan.specs.Slots.{SlotOf};

// Where a group lies in the ring, and the turn bit of its data blocks.
#[derive(Clone, Copy)]
pub struct RingSlot {
    pub slot: u64,
    pub turn: u64,
}

// The ring slot and turn of a group, by a division of 32 bits.
fn short_slot(n: u32, groups: u32) -> RingSlot
    requires { 0 < groups }
    ensures { SlotOf groups n result }
{
    RingSlot {
        slot: (n % groups) as u64,
        turn: (n / groups % 2) as u64,
    }
}

// The same for any group, as the first of a pass: a small machine divides numbers of 64 bits by a library call, and few logs get that far. [S-20]
pub fn first_slot(n: u64, groups: u64) -> RingSlot
    requires { 0 < groups }
    ensures { SlotOf groups n result }
{
    if n <= 0xFFFF_FFFF {
        if groups <= 0xFFFF_FFFF {
            return short_slot(n as u32, groups as u32);
        }
    }
    RingSlot {
        slot: n % groups,
        turn: n / groups % 2,
    }
}

// Those of the group after: the turn changes where the slots begin again. [S-20]
pub fn next_slot(at: RingSlot, groups: u64) -> RingSlot
    requires { (at.slot < groups) × (at.turn < 2) × (groups ≤ 1024) }
    ensures { (result.slot < groups) × ((n : ℕ) → SlotOf groups n at → SlotOf groups (n + 1) result) }
{
    let slot = at.slot + 1;
    if slot == groups {
        return RingSlot {
            slot: 0,
            turn: 1 - at.turn,
        };
    }
    RingSlot {
        slot,
        turn: at.turn,
    }
}

// Those of the group before. [S-20]
pub fn previous_slot(at: RingSlot, groups: u64) -> RingSlot
    requires { (at.slot < groups) × (at.turn < 2) × (groups ≤ 1024) }
    ensures { (result.slot < groups) × ((n : ℕ) → 0 < n → SlotOf groups n at → SlotOf groups (n - 1) result) }
{
    let slot = at.slot;
    let turn = at.turn;
    if slot == 0 {
        return RingSlot {
            slot: groups - 1,
            turn: 1 - turn,
        };
    }
    RingSlot {
        slot: slot - 1,
        turn,
    }
}
