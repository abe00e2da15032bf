// The rules at one item, by a state that stands for the items before it: the reader and the writer both go by these. `state` has what is
// remembered and what may stand where, `steps` one turn for each class. What each answers is said by the definitions of the crate `format`.
#![tactic(auto)]

pub mod state;
pub mod steps;

pub use state::{Kind, State};
pub use steps::Moved;
