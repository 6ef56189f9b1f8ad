// Where a position of the log lies in the ring.
ghost use Rattle.std.specs.Prelude.{◌≡◌, ◌+◌, ◌*◌, ◌/◌, ◌^◌, ◌<◌, ◌≤◌};
ghost use Rattle.log_shown.specs.There.{RingPlaced};

use model::State;

// The number of the position's group, its ring slot and turn, and the entry's index there.
#[derive(Clone, Copy)]
pub struct RingPlace {
    pub number: u64,
    pub slot: u64,
    pub turn: u64,
    pub k: u64,
}

// A number of positions divided by 7: a log has fewer than 2^13, for which a product and a shift do.
fn sevenths(n: u64) -> u64
    requires { n < 2 ^ 13 }
    ensures { result ≡ n / 7 }
{
    (n * 9363) >> 16
}

// The ring place of the position that lies `after` positions behind the log's start.
pub fn ring_place(st: State, after: u64) -> RingPlace
    requires { (after < 7 * st.groups) × (st.start ≤ 2 ^ 47) × (4 ≤ st.groups) × (st.groups ≤ 1024) }
    ensures { RingPlaced st.groups (7 * st.start + after) result }
{
    let ahead = sevenths(after);
    let number = st.start + ahead;
    let at = log_scan::first_slot(number, st.groups);
    RingPlace {
        number,
        slot: at.slot,
        turn: at.turn,
        k: after - 7 * ahead,
    }
}
