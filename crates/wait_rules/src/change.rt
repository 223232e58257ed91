// What an event changes, whether it keeps its rule or not.
ghost use Rattle.std.specs.Prelude.{◌≡◌};
ghost use Rattle.wait_rules.specs.Steps.{held_change};

use events::{Event, Kind};
use kinds::{SlotNo, Stamp};
use model::{Change, Counters, SlotChange};

#[tactic(auto, unfolding(crate::specs::Steps::held_change, crate::specs::Steps::held_by))]
pub fn change_of(was: Counters, e: Event) -> Change
    ensures { result ≡ held_change was e }
{
    let slot = SlotNo(e.slot);
    let number = Stamp(e.id);
    // What moves goes by the kind, and so do the counters: two matches, since other kinds share an arm in each.
    let moved = match e.kind {
        Kind::Register => SlotChange::Enters {
            slot,
            txid: kinds::txid_of_stamp(number),
        },
        Kind::End => SlotChange::Leaves { slot },
        Kind::Horizon => SlotChange::Retains { slot, xmin: e.xmin },
        Kind::Reserve | Kind::Observe => SlotChange::Stays,
    };
    let counters = match e.kind {
        Kind::Register | Kind::Reserve => counters::reserved(was, number),
        Kind::End | Kind::Horizon => was,
        Kind::Observe => counters::observed(was, e.clock, e.sample),
    };
    Change {
        slot: moved,
        counters,
    }
}
