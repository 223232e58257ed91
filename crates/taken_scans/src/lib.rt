// What the taken slots hold, over lent columns of any length: the oldest xmin, and the ids of a snapshot. Eight slots are one turn, and
// a turn of empty slots is passed over whole.
#![tactic(auto)]

mod oldest;
mod snapshot;

pub use oldest::oldest_retained;
pub use snapshot::{Taken, take_into, take_snapshot};
