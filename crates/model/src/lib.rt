// The definitions of the store stand in specs/; what they come to, computed, in proofs/; their laws in the crate `model_laws`. Here are the
// types that code and definitions share.
#![tactic(auto)]

// What a tag says where it stands ("a tag reads as nothing, an entry, or a closing entry").
// Entry(home, first) and Closing(home, first, link, count): `first` is the position of the transaction's first entry, `link`
// the distance back to the previous closing entry (0: none since the start) and `count` the number of the transaction's entries.
#[derive(Drop)]
pub enum Tag {
    Nothing,
    Entry(u64, u64),
    Closing(u64, u64, u64, u64),
}

// The numbers of the state strip, but for those of the writers.
#[derive(Clone, Copy)]
pub struct State {
    pub groups: u64,
    pub homes: u64,
    // the lowest live group number
    pub start: u64,
    // the number of the next group that has not been submitted, and how many of its places are filled
    pub next: u64,
    pub filled: u64,
    // positions: the settled one, the fenced one (F) and the durable mark
    pub settled: u64,
    pub fenced: u64,
    pub durable: u64,
    // the last closing entry's position + 1; none since the start where it is at most 7 x start
    pub last: u64,
    // the fenced position that the round under way has fixed + 1, or 0 for no round; homes below the cursor are done in it
    pub round: u64,
    pub cursor: u64,
}

// A writer's record, but for the held block.
#[derive(Clone, Copy)]
pub struct Writer {
    // 0 idle; 1 open, holding nothing; 2 holding a block, nothing logged; 3 holding a block, entries logged
    pub mode: u64,
    // the held block's home
    pub home: u64,
    // the position of its transaction's first entry, and how many entries it has logged
    pub first: u64,
    pub count: u64,
}

// What fills a log: its places that are live, dead and free, those of the free ones that are promised, and the writer whose logged entries begin
// lowest, with the position where they do (8 and 0 if no writer has any). A refusal holds its number in `code` and else zeros.
#[repr(C)]
#[derive(Drop)]
pub struct Usage {
    pub code: u64,
    pub live: u64,
    pub dead: u64,
    pub free: u64,
    pub promised: u64,
    pub holder: u64,
    pub first: u64,
}

// The writer that holds a log back and the position from which on, 8 and 0 for none.
#[derive(Clone, Copy)]
pub struct Holder {
    pub writer: u64,
    pub first: u64,
}
