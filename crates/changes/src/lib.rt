// How a change is stored: column by column or whole where the table is owned in place, or on a table by value, which copies it.
#![tactic(auto)]

ghost use Rattle.std.specs.Prelude.{◌≡◌};
ghost use Rattle.model.specs.Changes.{applied};
ghost use Rattle.model.specs.Stored.{stored_at, stored_txid, stored_xmin, stored_pin};

use kinds::{PINS, SLOTS};
use model::{Change, Decision, Outcome, SlotChange, SnapshotDecision, SnapshotOutcome, Table};

// Place i of a column, where the column has it.
#[tactic(auto, unfolding(model::specs::Stored::stored_at))]
fn store_at<const N: usize>(column: &mut [u64; N], i: usize, x: u64)
    ensures { column.new ≡ stored_at N column.old i x }
{
    if i < N {
        column[i] = x;
    }
}

// The column of txids after a change.
#[tactic(auto, unfolding(model::specs::Stored::stored_txid))]
pub fn store_txid(txids: &mut [u64; SLOTS], change: SlotChange)
    ensures { txids.new ≡ stored_txid SLOTS change txids.old }
{
    match change {
        SlotChange::Enters { slot, txid } => store_at(txids, usize::from(slot.0), txid.0),
        SlotChange::Leaves { slot } => store_at(txids, usize::from(slot.0), 0),
        SlotChange::Stays | SlotChange::Retains { .. } | SlotChange::Pins { .. } => {}
    }
}

// The column of snapshot_xmins after a change.
#[tactic(auto, unfolding(model::specs::Stored::stored_xmin))]
pub fn store_xmin(xmins: &mut [u64; SLOTS], change: SlotChange)
    ensures { xmins.new ≡ stored_xmin SLOTS change xmins.old }
{
    match change {
        SlotChange::Enters { slot, txid } => store_at(xmins, usize::from(slot.0), txid.0),
        SlotChange::Leaves { slot } => store_at(xmins, usize::from(slot.0), 0),
        SlotChange::Retains { slot, xmin } => store_at(xmins, usize::from(slot.0), xmin),
        SlotChange::Stays | SlotChange::Pins { .. } => {}
    }
}

// The pins after a change.
#[tactic(auto, unfolding(model::specs::Stored::stored_pin))]
pub fn store_pin(pins: &mut [u64; PINS], change: SlotChange)
    ensures { pins.new ≡ stored_pin change pins.old }
{
    if let SlotChange::Pins { pin, xmin } = change {
        store_at(pins, usize::from(pin.0), xmin);
    }
}

// The whole change, in place.
#[tactic(auto, using(model::proofs::Stores::stored_applied))]
pub fn store(table: &mut Table, change: Change)
    ensures { table.new ≡ applied table.old change }
{
    store_txid(&mut table.txids, change.slot);
    store_xmin(&mut table.snapshot_xmins, change.slot);
    store_pin(&mut table.pins, change.slot);
    table.counters = change.counters;
}

// The table after a change.
pub fn apply(table: Table, change: Change) -> Table
    ensures { result ≡ applied table change }
{
    let mut next = table;
    store(&mut next, change);
    next
}

// What comes back from a call by value: the table after the change that was decided, and the answer.
pub fn carry_out(table: Table, decided: Decision) -> Outcome
    ensures { result ≡ record { table = applied table decided.change; answer = decided.answer } }
{
    Outcome {
        table: apply(table, decided.change),
        answer: decided.answer,
    }
}

// The same of a snapshot call, with the snapshot.
pub fn carry_out_snapshot(table: Table, decided: SnapshotDecision) -> SnapshotOutcome
    ensures { result ≡ record { table = applied table decided.change; answer = decided.answer; snapshot = decided.snapshot } }
{
    // No twin of the other: each is the outcome that README names.
    SnapshotOutcome {
        table: apply(table, decided.change),
        answer: decided.answer,
        snapshot: decided.snapshot,
    }
}
