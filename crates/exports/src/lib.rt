// Every call of documents 01 and 02 under a plain name, with flat answers, laid out as C lays them out: the crate exports_c hands each of them to C and
// Rust. Each call calls the one function that it is named for and lays its answer out flat; what it promises is that function's promise.
#![tactic(auto)]

pub mod answers;
pub mod asking;
pub mod assembling;
pub mod following;
pub mod reading;
pub mod recording;
pub mod writing;
