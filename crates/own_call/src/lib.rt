// A transaction's snapshot, whose xmin its slot then retains.
#![tactic(auto)]

ghost use Rattle.std.specs.Prelude.{◌≡◌};
ghost use Rattle.model.specs.Tables.{lent_slots};
ghost use Rattle.model.specs.Calls.{own, refusal, snapshot_decision, snapshot_outcome};

use kinds::{Refusal, SLOTS, SlotNo, Txid};
use model::{Answer, Change, Counters, SlotChange, SnapshotDecision, SnapshotOutcome, Table};
use refused::refused_snapshot;

// Refusals 2, 4, 3, 7, 8, in this order.
pub fn own_test(
    txids: &[u64],
    was: Counters,
    slot: SlotNo,
    id: Txid,
    clock: u64,
    sample: u64,
) -> Result<(), Refusal>
    ensures { result ≡ refusal SLOTS (lent_slots SLOTS txids.now was) (own slot id clock sample) }
{
    verdicts::owner_test(txids, slot, id)?;
    clock_verdicts::observation_test(was.clock, clock, sample)
}

// On lent txids.
#[tactic(auto, using(model::proofs::Decides::shows), unfolding(model::specs::Calls::change_accepted, model::specs::Calls::answer_accepted, model::specs::Calls::shown_accepted, model::specs::Tally::snapshot_of))]
pub fn decide_own(
    txids: &[u64],
    was: Counters,
    slot: SlotNo,
    id: Txid,
    clock: u64,
    sample: u64,
) -> SnapshotDecision
    ensures { result ≡ snapshot_decision SLOTS (lent_slots SLOTS txids.now was) (own slot id clock sample) }
{
    // Not lent as `Columns`: by its parameters the contract says which columns the call can't read.
    if let Err(refusal) = own_test(txids, was, slot, id, clock, sample) {
        return refused_snapshot(was, refusal);
    }
    let snapshot = taken_scans::take_snapshot(txids, sample);
    SnapshotDecision {
        change: Change {
            slot: SlotChange::Retains {
                slot,
                xmin: snapshot.xmin,
            },
            counters: counters::observed(was, clock, sample),
        },
        answer: Ok(Answer::Done),
        snapshot,
    }
}

// On a table by value.
pub fn create_transaction_snapshot(
    table: Table,
    slot: SlotNo,
    id: Txid,
    clock: u64,
    sample: u64,
) -> SnapshotOutcome
    ensures { result ≡ snapshot_outcome SLOTS table (own slot id clock sample) }
{
    let decided = decide_own(&table.txids, table.counters, slot, id, clock, sample);
    changes::carry_out_snapshot(table, decided)
}
