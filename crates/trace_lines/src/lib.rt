// The lines of a trace: a record, and a whole text, read and judged line by line.
#![tactic(auto)]

mod lines;
mod records;
mod versions;
mod whole;

pub use lines::record_at;
pub use whole::read_trace;
