// What the writer answers about an item that it put; a refusal left every byte as found.
use rules::state::State;

// The new length, and the state behind the item.
#[derive(Clone, Copy, Debug, PartialEq, Eq)]
pub struct Put {
    pub length: usize,
    pub state: State,
}
