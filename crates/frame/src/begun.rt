// What judging a partial frame answers.
use rules::state::{Kind, State};

// An accepted partial frame: what its first words say, and the state behind its items.
#[derive(Clone, Copy, Debug, PartialEq, Eq)]
pub struct PartialFrame {
    pub kind: Kind,
    pub card: u16,
    pub sequence: u16,
    pub state: State,
}
