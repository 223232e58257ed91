// The second engine (SPEC 19): it keeps the list of calls and nothing else, and tells the whole list again for each answer: who is
// registered, each stored xmin, each pin, the clock and the line. Its cost is that of the list, and it has no table to go wrong.
#![tactic(auto)]

mod answer;
mod holds;
mod list;
mod retell;

pub use answer::{Said, answer_to};
pub use holds::agreement_holds;
pub use list::keep;
