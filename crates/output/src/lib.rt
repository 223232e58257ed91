// The text of an answer: its numbers in eight lines, under proc-2 in nine, then a line for each listed id.
#![tactic(auto)]

mod lines;

pub use lines::put_answer;
