// What one call does and answers, told by numbers alone: each of the ten in the words of SPEC 5, on columns that the second engine
// worked out of its list.
#![tactic(auto)]

mod asked;
mod op;
mod parts;
mod slots;
mod views;

pub use asked::one_call;
use model::{Counters, Numbers};

// What a call moves: one slot, which holds (txid, xmin) now, or one pin, which holds `held`.
#[derive(Clone, Copy, Debug, PartialEq, Eq)]
pub enum Moved {
    Nothing,
    Slot { place: usize, txid: u64, xmin: u64 },
    Pin { pin: usize, held: u64 },
}

// .. with the counters that it leaves.
#[derive(Clone, Copy, Debug, PartialEq, Eq)]
pub struct Deed {
    pub moved: Moved,
    pub counters: Counters,
}

// .. beside what it answers.
#[derive(Clone, Copy, Debug, PartialEq, Eq)]
pub struct Did {
    pub deed: Deed,
    pub numbers: Numbers,
}
