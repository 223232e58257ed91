// A plain snapshot, for a reader that isn't registered: no slot changes.
#![tactic(auto)]

ghost use Rattle.std.specs.Prelude.{◌≡◌};
ghost use Rattle.model.specs.Tables.{lent_slots};
ghost use Rattle.model.specs.Calls.{snap, snapshot_decision, snapshot_outcome};

use kinds::SLOTS;
use model::{Answer, Change, Counters, SlotChange, SnapshotDecision, SnapshotOutcome, Table};
use refused::refused_snapshot;

// On lent txids. Refusals 7, 8, in this order.
#[tactic(auto, using(model::proofs::Decides::shows), unfolding(model::specs::Calls::refusal, model::specs::Calls::change_accepted, model::specs::Calls::answer_accepted, model::specs::Calls::shown_accepted))]
pub fn decide_snap(txids: &[u64], was: Counters, clock: u64, sample: u64) -> SnapshotDecision
    ensures { result ≡ snapshot_decision SLOTS (lent_slots SLOTS txids.now was) (snap clock sample) }
{
    // Not lent as `Columns`: by its parameters the contract says which columns the call can't read.
    if let Err(refusal) = clock_verdicts::observation_test(was.clock, clock, sample) {
        return refused_snapshot(was, refusal);
    }
    SnapshotDecision {
        change: Change {
            slot: SlotChange::Stays,
            counters: counters::observed(was, clock, sample),
        },
        answer: Ok(Answer::Done),
        snapshot: taken_scans::take_snapshot(txids, sample),
    }
}

// On a table by value.
pub fn create_snapshot(table: Table, clock: u64, sample: u64) -> SnapshotOutcome
    ensures { result ≡ snapshot_outcome SLOTS table (snap clock sample) }
{
    let decided = decide_snap(&table.txids, table.counters, clock, sample);
    changes::carry_out_snapshot(table, decided)
}
