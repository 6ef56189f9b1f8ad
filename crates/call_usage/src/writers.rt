// The open transactions: how many entries they have logged, and which of them lies lowest in the log.
ghost use Rattle.std.specs.Prelude.{◌≡◌, cond, ◌*◌, ◌≤◌, ◌<◌, length};
ghost use Rattle.model.specs.State.{writer_of, count_for};
ghost use Rattle.abstract_store.specs.Usage.{open_entries, holds_lower, holder_of};
ghost use Rattle.call_usage.specs.Sums.{CountsFit};

use model::Holder;

// How many entries writer `w` has logged in an open transaction.
fn logged(state: &[u8], w: usize) -> u64
    requires { (length state.now ≡ 1024) × (w < 8) }
    ensures { result ≡ count_for (writer_of state.now w) }
{
    let r = base_state::writer(state, w);
    base_state::count_for(r)
}

// How many entries the eight writers have logged in open transactions.
pub fn open_entries(state: &[u8]) -> u64
    requires { (length state.now ≡ 1024) × CountsFit state.now }
    ensures { (result ≡ open_entries state.now 8) × (result ≤ 7168 * 8) }
{
    let mut sum: u64 = 0;
    let mut w: usize = 0;
    while w < 8 {
        sum += logged(state, w);
        w += 1;
    }
    sum
}

// The holder of the writers up to `w`, where `h` is that of those before it.
fn lower(state: &[u8], w: usize, h: Holder) -> Holder
    requires { (length state.now ≡ 1024) × (w < 8) }
    ensures { result ≡ cond (holds_lower (writer_of state.now w) h)
        (record { writer = w; first = (writer_of state.now w).first }) h }
{
    let r = base_state::writer(state, w);
    if !base_state::has_logged(r) {
        return h;
    }
    if h.writer != 8 {
        if h.first <= r.first {
            return h;
        }
    }
    Holder {
        writer: w as u64,
        first: r.first,
    }
}

// The writer whose logged entries begin lowest, with the position where they do; 8 and 0 if no writer has any.
pub fn holder(state: &[u8]) -> Holder
    requires { length state.now ≡ 1024 }
    ensures { result ≡ holder_of state.now 8 }
{
    let mut h = Holder {
        writer: 8,
        first: 0,
    };
    let mut w: usize = 0;
    while w < 8 {
        h = lower(state, w, h);
        w += 1;
    }
    h
}
