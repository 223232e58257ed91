// A call that shows a snapshot, made where a table lies.
ghost use Rattle.std.specs.Prelude.{◌≡◌, false};
ghost use Rattle.model.specs.Tables.{lent_by};
ghost use Rattle.model.specs.Calls.{Call};
ghost use Rattle.model.specs.Deeds.{opens};
ghost use Rattle.place.specs.Calls.{list_number, list_table, list_out, list_ids};
ghost use Rattle.place_answers.specs.Shows.{decided_by, TestedBy};

use crate::{give, refuse};
use kinds::{PinNo, Refusal, SLOTS, SlotNo};
use model::{Answer, Change, Columns, Counters, Decision, SlotChange};

// Where the xmin of a snapshot is retained.
#[derive(Clone, Copy, Debug, PartialEq, Eq)]
pub enum Retainer {
    Nobody,
    Slot(SlotNo),
    Pin(PinNo),
}

// What a call that passed its tests goes on with: the sample that its snapshot is taken with, who retains it, and the counters after.
#[derive(Clone, Copy, Debug, PartialEq, Eq)]
pub struct Passed {
    pub sample: u64,
    pub retainer: Retainer,
    pub counters: Counters,
}

// What is decided where the snapshot's xmin is this.
fn decided(passed: Passed, xmin: u64) -> Decision
    ensures { result ≡ decided_by passed xmin }
{
    let (slot, answer) = match passed.retainer {
        Retainer::Nobody => (SlotChange::Stays, Answer::Done),
        Retainer::Slot(slot) => (SlotChange::Retains { slot, xmin }, Answer::Done),
        Retainer::Pin(pin) => (SlotChange::Pins { pin, xmin }, Answer::Pinned(pin)),
    };
    Decision {
        change: Change {
            slot,
            counters: passed.counters,
        },
        answer: Ok(answer),
    }
}

// A call as a value: what the model calls it, and how it is tested on a table's columns.
pub trait Shows {
    ghost call: { Self → Call };

    fn test(self, columns: Columns<'_>) -> Result<Passed, Refusal>
        ensures { TestedBy SLOTS (lent_by columns.entry) (call self) result };

    // It registers nobody.
    ghost registers: { (c : Self) → opens (call c) ≡ false };
}

// Tests the call on the words as they lie, scans their ids in flight into the first places of `ids`, stores the change and tells the
// answer; it answers the refusal's number, or 0. 18 for a table of another length and 12 where `out` or `ids` is too short: then
// nothing is written. A refused call leaves `ids`.
pub fn show<C: Shows + Drop>(table: &mut [u64], out: &mut [u64], ids: &mut [u64], call: C) -> u64
    ensures result_value { result ≡ list_number SLOTS table.old out.old ids.old (C.Shows.call call) }
    ensures table_after { table.new ≡ list_table SLOTS table.old out.old ids.old (C.Shows.call call) }
    ensures out_after { out.new ≡ list_out SLOTS table.old out.old ids.old (C.Shows.call call) }
    ensures ids_after { ids.new ≡ list_ids SLOTS table.old out.old ids.old (C.Shows.call call) }
{
    if let Err(refusal) = place::list_shape(table.len(), out.len(), ids.len()) {
        return kinds::number_of(refusal);
    }
    let columns = place::columns_in(table);
    let was = columns.counters;
    match call.test(columns) {
        Ok(passed) => {
            let taken = taken_scans::take_into(columns.txids, passed.sample, ids);
            give(table, out, decided(passed, taken.xmin), taken)
        }
        Err(refusal) => refuse(table, out, was, refusal),
    }
}
