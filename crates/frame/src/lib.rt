// Frames are read: one verdict, one reading. What each function answers is said by the definitions of the crate `format`; each takes all
// bytes and all arguments. `read` tells whether some bytes are a frame, `item` what stands at an ordinal, `item_at` what stands at a word, `text` a
// text's bytes; `partial` judges what the writer has written so far. The rules at one item are those of the crate `rules`, by which the writer goes too.
#![tactic(auto)]

pub mod begun;
pub mod head;
mod inside;
pub mod items;
pub mod partial;
pub mod reading;
mod repeats;
pub mod walk;

pub use begun::PartialFrame;
pub use cursor::standing::{FoundItem, item_at};
pub use items::{IndexedItem, item, text};
pub use reading::{Frame, read};
pub use rules::state::{Kind, State};
