// One event of a wait: when it may happen, and what it changes.
#![tactic(auto)]

mod change;
mod rules;

pub use change::change_of;
use kinds::{SlotNo, Txid};
pub use rules::keeps_rule;

// A registration: its slot must not be touched.
#[derive(Clone, Copy, Debug, PartialEq, Eq)]
pub struct Registration {
    pub slot: SlotNo,
    pub id: Txid,
}
