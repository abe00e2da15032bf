// The house book as code: the class of a word, told by a page, the item structs with their limits, and the words of a slice of bytes. What each
// public function answers is said by the definitions of the crate `format`, of a page by its own; none has a `requires`.
#![tactic(auto)]

pub mod class;
pub mod items;
pub mod page;
pub mod refusal;
pub mod words;
