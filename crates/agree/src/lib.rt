// The two engines held against each other over a trace: what the table prints for each record against what the second engine says.
#![tactic(auto)]

mod all;

pub use all::all_agree;
