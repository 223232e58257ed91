// The replay: a captured trace in, the answers of its calls out.
#![tactic(auto)]

mod border;
mod into;
mod last;
mod out;

pub use border::{Handed, Stopped};
pub use into::replay_into;
pub use out::{Gone, replay_to};
pub use trace::LONGEST;
