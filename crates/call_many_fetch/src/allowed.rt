// Questions 19 and 20 for all homes of a call.
ghost use Rattle.std.specs.Prelude.{◌≡◌, [], ◌+◌, ◌*◌, ◌<◌, ◌≤◌, length};
ghost use Rattle.model.specs.Layout.{home_count};
ghost use Rattle.call_ask.specs.Lent.{lent_all};
ghost use Rattle.call_ask.proofs.AnswerLaws.{Usable};
ghost use Rattle.model.specs.State.{list_sign};
ghost use Rattle.model.specs.Rights.{right_to_store, right_to_read, read_list};
ghost use Rattle.acts.specs.Many.{all_of};

// Whether a writer may store to each of `n` homes from `home` on.
pub fn may_store_all(
    log: &[u8],
    area: &[u8],
    state: &[u8],
    newest: &[u8],
    writer: u64,
    home: u64,
    n: u64,
) -> bool
    requires { Usable log.now area.now state.now × (length newest.now ≡ 8 * home_count (length area.now)) × (writer < 8)
        × (home + n ≤ home_count (length area.now)) }
    ensures { result ≡ all_of (right_to_store (list_sign state.now) (home_count (length area.now))
        (read_list (lent_all log.now area.now state.now
        newest.now [] [] writer 0)) writer) home n }
{
    let mut i: u64 = 0;
    while i < n {
        if !call_rights::may_store_newest(log, area, state, newest, writer, home + i) {
            return false;
        }
        i += 1;
    }
    true
}

// Whether a writer may read each of `n` homes from `home` on.
pub fn may_read_all(
    log: &[u8],
    area: &[u8],
    state: &[u8],
    newest: &[u8],
    writer: u64,
    home: u64,
    n: u64,
) -> bool
    requires { Usable log.now area.now state.now × (length newest.now ≡ 8 * home_count (length area.now)) × (writer < 8)
        × (home + n ≤ home_count (length area.now)) }
    ensures { result ≡ all_of (right_to_read (list_sign state.now) (home_count (length area.now))
        (read_list (lent_all log.now area.now state.now
        newest.now [] [] writer 0)) writer) home n }
{
    let mut i: u64 = 0;
    while i < n {
        if !call_rights::may_read(log, area, state, newest, writer, home + i) {
            return false;
        }
        i += 1;
    }
    true
}
