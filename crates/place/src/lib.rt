// A table in a host's memory (SPEC 20): one run of words, which is read and written where it lies, and a short run for the numbers
// of an answer. What the calls in place share; they stand in the crates above.
#![tactic(auto)]

mod in_place;
mod shape;
mod told;
mod words;

pub use in_place::{InPlace, run};
pub use shape::{HEAD, list_shape, shape_test};
pub use told::{tell, tell_plain};
pub use words::{CLOCK, LINE, PINS_FROM, SAMPLE, WORDS, columns_in, counters_in, store};
