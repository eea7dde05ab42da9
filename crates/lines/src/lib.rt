// Questions and answers, one a line, in the form of docs/REPLAY.md: what the programs that replay the Rust's answers share.
#![tactic(auto)]

pub mod ask;
pub mod fields;
pub mod print;
pub mod read;
