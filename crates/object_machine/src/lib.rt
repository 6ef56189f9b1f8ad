// The store object as a machine for a driver: an operation is asked for, and each turn answers with what the driver is to do next. No callback, no heap:
// what it keeps between two turns stands in a control block that the caller lends.
#![tactic(auto)]

pub mod asks;
mod calls;
mod fields;
mod moves;
pub mod next;
mod turns;

// What the control block holds, eight bytes each.
#[derive(Clone, Copy)]
pub struct Control {
    // 1 closed, 2 ready, 3 failed; then the driver's error
    pub condition: u64,
    pub error: u64,
    // what comes when the batch in hand has been carried out (specs/Moves.antt); the stage with which the operation began, and its numbers
    pub stage: u64,
    pub op: u64,
    pub writer: u64,
    pub home: u64,
    pub number: u64,
    // whether room has been made in this operation, and where the log started then
    pub tried: u64,
    pub from: u64,
    // the figure of the last call, the length of its batch, and how far that has been handed out (the runner's cursor)
    pub figure: u64,
    pub size: u64,
    pub at: u64,
    pub headed: u64,
    pub step: u64,
    // settings: what the medium keeps whole (0 words, 1 blocks); who makes room (0 the operation, 1 maintain); stores to the list of rights (0 refused)
    pub landing: u64,
    pub room: u64,
    pub lists: u64,
}

// What comes next. `kind`: 0 the operation is over, with its answer `code` and `figure` (8 and 17: the holder; 65: the driver's error); 1 write `size` bytes at
// `offset` of `area` (0 the log, 1 the homes), which lie in `source` (0 the batch, 1 the log copy) from index `from` on; 2 fence; 3 load `size` bytes from
// `offset` of `area` on into its copy; 4 nothing. Unless it is over, ask next with the driver's result (0 for nothing).
#[repr(C)]
#[derive(Clone, Copy)]
pub struct Turn {
    pub kind: u64,
    pub area: u64,
    pub offset: u64,
    pub size: u64,
    pub source: u64,
    pub from: u64,
    pub code: u64,
    pub figure: u64,
}

// A turn with what it leaves in the control block.
#[derive(Clone, Copy)]
pub struct Moved {
    pub control: Control,
    pub turn: Turn,
}
