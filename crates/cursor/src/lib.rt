// What stands at a word of some bytes, wherever one asks: decoding alone, by which every scan over an accepted frame goes. What each function
// answers is said by the definitions of the crate `format`; each takes all bytes and all arguments.
#![tactic(auto)]

pub mod standing;
pub mod texts;

pub use standing::{FoundItem, item_at};
