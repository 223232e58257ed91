// What an accepted call answers, and the records in which an answer stands beside what the call changed.
ghost use Rattle.std.specs.Prelude.{◌≡◌};
ghost use Rattle.model.specs.Changes.{refused_decision};

use crate::{Change, Counters, SlotChange, Table};
use kinds::{PinNo, Refusal, SlotNo, Stamp, Told, Txid};
use settled::Snapshot;

#[derive(Clone, Copy, Debug, PartialEq, Eq)]
pub enum Answer {
    // Begin: the slot taken, and the id.
    Begun { slot: SlotNo, id: Txid },
    // End, a release, and the snapshot calls, whose snapshot stands beside the answer.
    Done,
    // A pinned snapshot: the pin taken; the snapshot stands beside it.
    Pinned(PinNo),
    // Oldest: the oldest retained xmin, and who holds it back: the lowest taken slot that retains it, else 2,000 plus
    // the lowest pin that does, else 65,535.
    Oldest { xmin: u64, holder: u64 },
    // Vacuum: the line, and the holder that oldest would name.
    Line { line: u64, holder: u64 },
    // (A holder is one number, as it is printed and as C takes it.)
    // Stamp and finish: the stamp.
    Stamped(Stamp),
}

// An answer as numbers, beside the vacuum line after the call and the length of the list of ids; what isn't given is 0.
#[derive(Clone, Copy, Debug, PartialEq, Eq)]
pub struct Numbers {
    pub told: Told,
    pub xmin: u64,
    pub xmax: u64,
    pub vacuum_line: u64,
    pub count: usize,
    pub holder: u64,
}

// What a call decides on lent columns: who owns the table makes the change.
#[derive(Clone, Copy, Debug, PartialEq, Eq)]
pub struct Decision {
    pub change: Change,
    pub answer: Result<Answer, Refusal>,
}

impl Decision {
    // What a refused call decides: no slot and no pin moves, and the counters stay.
    pub fn refused(was: Counters, refusal: Refusal) -> Decision
        ensures { result ≡ refused_decision was refusal }
    {
        Decision {
            change: Change {
                slot: SlotChange::Stays,
                counters: was,
            },
            answer: Err(refusal),
        }
    }
}

// Of a snapshot call. Beside a refusal stands the snapshot of zeros.
#[derive(Clone, Copy)]
pub struct SnapshotDecision {
    pub change: Change,
    pub answer: Result<Answer, Refusal>,
    pub snapshot: Snapshot,
}

// What comes back from a call on a table by value.
#[derive(Clone, Copy)]
pub struct Outcome {
    // Beside the answer, and not within it: a refused call answers a table too.
    pub table: Table,
    pub answer: Result<Answer, Refusal>,
}

#[derive(Clone, Copy)]
pub struct SnapshotOutcome {
    pub table: Table,
    pub answer: Result<Answer, Refusal>,
    pub snapshot: Snapshot,
}
