// The scans of the second engine, over columns that it worked out itself. They share no line with the table's own: oldest and its
// holder come of one walk downwards.
#![tactic(auto)]

mod flight;
mod free;
mod held;

pub use flight::{Flight, in_flight, listed_ids};
pub use free::lowest_free;
pub use held::{Held, held_back};
