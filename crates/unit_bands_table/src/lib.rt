// Depth bands as station engineers set them: which pumps run at which depth. A table is judged, packed into its home blocks and
// looked up here; the calls that read and store the blocks stand above the store.
#![tactic(auto)]

mod judging;
mod packed;
mod rows;

pub use judging::{Verdict, accepts, judge};
pub use packed::{Lookup, SIZE, judge_packed, look_up, pack};
pub use rows::{DEPTHS, Row, find};
