// The scans of the slots for one of them, over lent columns of any length. Eight slots are one turn, asked as a whole.
#![tactic(auto)]

mod holder;
mod lowest;

pub use holder::lowest_holder;
pub use lowest::lowest_empty;
