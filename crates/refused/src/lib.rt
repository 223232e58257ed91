// A refused snapshot call: no slot changes, the counters stay, and beside the refusal stands the snapshot of zeros.
#![tactic(auto)]

ghost use Rattle.std.specs.Prelude.{◌≡◌};
ghost use Rattle.settled.specs.Snapshots.{no_snapshot};
ghost use Rattle.model.specs.declared.change.SlotChange.TheVariants.{Stays};
ghost use Rattle.model.specs.Answer.{Refused};
ghost use Rattle.model.specs.Changes.{change};

use kinds::{Refusal, SLOTS};
use model::{Change, Counters, SlotChange, SnapshotDecision};

pub fn refused_snapshot(was: Counters, refusal: Refusal) -> SnapshotDecision
    ensures { result ≡ record { change = change Stays was; answer = Refused refusal; snapshot = no_snapshot SLOTS } }
{
    SnapshotDecision {
        change: Change {
            slot: SlotChange::Stays,
            counters: was,
        },
        answer: Err(refusal),
        snapshot: settled::no_snapshot(),
    }
}
