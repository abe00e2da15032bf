// Records are opened, edited and restored, in lent buffers. What each function answers, and every byte that it leaves, is said by the
// definitions of the crate `ledger`, at document 01's frames (`plane_frames`): opening and edits at the entries of version 2 (`version_two`), restoring
// at those of the version that the record names (`format_in`).
#![tactic(auto)]

mod answers;
pub mod editing;
pub mod opening;
pub mod restoring;
pub mod stores;
