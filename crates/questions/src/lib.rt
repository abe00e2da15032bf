// Questions on a frame's events, samples and counts, and on the word of a sample or a bin. Each judges the whole frame first; then one plain scan over the items of an accepted
// frame, which needs no rule. What each function answers is said by the definitions of the crate `format`.
#![tactic(auto)]

pub mod answers;
pub mod counts;
pub mod event;
pub mod fill;
mod items;
pub mod samples;
pub mod scan;
pub mod words;
