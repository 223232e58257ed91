// What is proved of lists of any length, at the table's own number of slots and the list's own limit. Nothing to run.
ghost use Rattle.ledger.specs.Agree.{Agreement};

use kinds::{CALLS, SLOTS};

// At each call of a list within the limit the second engine answers what the table does, and one call more is refusal 19.
pub fn agreement_holds()
    ensures { Agreement CALLS SLOTS }
{}
