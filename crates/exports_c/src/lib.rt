// The static library for C and Rust on x86-64: each call of `exports` under its own plain name, by the C calling convention. include/plane_record.h says
// the same to C. Each export hands what it is given to the one function of `exports` that it is named for, and promises what that one promises, in the
// same words.
#![tactic(auto)]

pub mod asking;
pub mod assembling;
pub mod following;
pub mod reading;
pub mod recording;
pub mod writing;
