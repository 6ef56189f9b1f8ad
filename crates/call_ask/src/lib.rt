// What a call answers, and the questions that most calls put first.
#![tactic(auto)]

ghost use Rattle.std.specs.Prelude.{◌≡◌, ◌&&◌, [], eqb, length};
ghost use Rattle.model.specs.Layout.{log_length_right, data_length_right};
ghost use Rattle.model.specs.Questions.{ask_state, ask_block, ask_newest, ask_both};
ghost use Rattle.call_ask.specs.Lent.{lent, lent_all};

use base_codec::STATE_SIZE;

// The answer of a call: 0 for done or the number of the refusal, the call's figure, and how many bytes of the batch it wrote.
#[repr(C)]
#[derive(Drop)]
pub struct Reply {
    pub code: u64,
    pub figure: u64,
    pub size: u64,
}

// The answer of a call that refuses.
pub fn refused(code: u64) -> Reply
    ensures { (result.code ≡ code) × (result.figure ≡ 0) × (result.size ≡ 0) }
{
    Reply {
        code,
        figure: 0,
        size: 0,
    }
}

// The answer of a call that is done.
pub fn done(figure: u64, size: u64) -> Reply
    ensures { (result.code ≡ 0) × (result.figure ≡ figure) × (result.size ≡ size) }
{
    Reply {
        code: 0,
        figure,
        size,
    }
}

// Whether the lengths of both copies and of the strip are right.
pub fn lengths_right(log: &[u8], area: &[u8], state: &[u8]) -> bool
    ensures { result ≡ (log_length_right (length log.now)
        && (data_length_right (length area.now) && eqb (length state.now) 1024)) }
{
    if !base_areas::log_right(log.len()) {
        return false;
    }
    if !base_areas::data_right(area.len()) {
        return false;
    }
    state.len() == STATE_SIZE
}

// Questions 1 and 2: 0 if the lengths are right and the strip is in order, else the number of the refusal.
pub fn state_answer(log: &[u8], area: &[u8], state: &[u8]) -> u64
    ensures { result ≡ ask_state (lent log.now area.now state.now [] [] 0 0) 0 }
{
    if !lengths_right(log, area, state) {
        return 1;
    }
    let groups = base_areas::log_groups(log.len());
    let homes = base_areas::data_homes(area.len());
    if !base_order::whole_in_order(state, groups, homes) {
        return 2;
    }
    0
}

// The same for a call that is lent a block.
pub fn block_answer(log: &[u8], area: &[u8], state: &[u8], block: &[u8]) -> u64
    ensures { result ≡ ask_block (lent log.now area.now state.now block.now [] 0 0) 0 }
{
    if !lengths_right(log, area, state) {
        return 1;
    }
    if block.len() != 64 {
        return 1;
    }
    let groups = base_areas::log_groups(log.len());
    let homes = base_areas::data_homes(area.len());
    if !base_order::whole_in_order(state, groups, homes) {
        return 2;
    }
    0
}

// Questions 1 and 2 of a call that is lent the newest positions, eight bytes for each home.
pub fn newest_answer(log: &[u8], area: &[u8], state: &[u8], newest: &[u8]) -> u64
    ensures { result ≡ ask_newest (lent_all log.now area.now state.now newest.now [] [] 0 0) 0 }
{
    if newest.len() as u64 != 8 * base_areas::data_homes(area.len()) {
        return 1;
    }
    state_answer(log, area, state)
}

// The same for a call that is lent a block too.
pub fn both_answer(log: &[u8], area: &[u8], state: &[u8], newest: &[u8], block: &[u8]) -> u64
    ensures { result ≡ ask_both (lent_all log.now area.now state.now newest.now
        block.now [] 0 0) 0 }
{
    if newest.len() as u64 != 8 * base_areas::data_homes(area.len()) {
        return 1;
    }
    block_answer(log, area, state, block)
}
