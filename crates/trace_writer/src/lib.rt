// Captured runs as rows of numbers: the text of a run of rows. The rows of a text are read in crate rows_reader, and handed
// on from here.
#![tactic(auto)]

mod lines;
mod write;

pub use rows_reader::read_rows;
pub use write::write_trace;
