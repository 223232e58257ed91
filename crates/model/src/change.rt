// What a call changes of a table: one slot or one pin at most, and the counters. The kinds of number hold here too, so that no stamp
// becomes a slot's txid but by the visible step.
use crate::Counters;
use kinds::{PinNo, SlotNo, Txid};

#[derive(Clone, Copy, Debug, PartialEq, Eq)]
pub enum SlotChange {
    // No slot and no pin moves.
    Stays,
    // The slot becomes (txid, txid).
    Enters { slot: SlotNo, txid: Txid },
    // The slot becomes (0, 0).
    Leaves { slot: SlotNo },
    // The slot's snapshot_xmin alone becomes xmin.
    Retains { slot: SlotNo, xmin: u64 },
    // No slot moves, and the pin becomes xmin: 0 frees it.
    Pins { pin: PinNo, xmin: u64 },
}

// The counters become these.
#[derive(Clone, Copy, Debug, PartialEq, Eq)]
pub struct Change {
    pub slot: SlotChange,
    pub counters: Counters,
}
