// Frames are written: `begin`, `add` one item or `add_text`, `close`, on a partial frame in a lent buffer. `put` and `put_text` add one item by a
// state that the caller carries. What each call answers and leaves is said by the definitions of the crate `format`; none has a `requires`.
#![tactic(auto)]

pub mod answers;
pub mod calls;
pub mod steps;
mod stores;

pub use answers::Put;
pub use calls::{add, add_text, begin, close};
pub use steps::{put, put_text};
