//! The lines that a client prints: what its statements answered, and how its transactions ended.
#![tactic(auto)]

mod number;
mod refusal;
mod turn;

pub use turn::{Turn, answer_lines, commit_line, refused_line};
