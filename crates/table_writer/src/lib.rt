// The text of a table, measured and written. Crate table_text has what it is, and reads it.
#![tactic(auto)]

mod lines;
mod write;

pub use table_measure::table_length;
pub use write::put_table;
