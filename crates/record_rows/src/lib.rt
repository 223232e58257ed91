// A record as a row of six numbers: its op's number, slot, id, stamp, clock and sample. A run of records is a `&[[u64; 6]]`.
#![tactic(auto)]

mod rows;

pub use rows::{record_of, row_of};

// Why a row is no record: no op has its number, its slot is above 65,535, or a number other than 0 stands in a field that
// the op doesn't read.
#[derive(Clone, Copy, Debug, PartialEq, Eq)]
pub enum NoRecord {
    UnknownOp,
    SlotTooLarge,
    UnreadNumber,
}
