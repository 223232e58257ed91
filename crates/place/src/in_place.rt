// A call that shows no snapshot, made where a table lies.
ghost use Rattle.std.specs.Prelude.{◌≡◌};
ghost use Rattle.model.specs.Tables.{lent_by};
ghost use Rattle.model.specs.Calls.{Call, decision};
ghost use Rattle.place.specs.Plain.{Plain};
ghost use Rattle.place.specs.Calls.{number_of, table_left, out_left};

use crate::shape::shape_test;
use crate::told::tell_plain;
use crate::words::{columns_in, store};
use kinds::SLOTS;
use model::{Columns, Decision};

// A call as a value: what the model calls it, and what it decides on a table's columns.
pub trait InPlace {
    ghost call: { Self → Call };

    fn decide(self, columns: Columns<'_>) -> Decision
        ensures { result ≡ decision SLOTS (lent_by columns.entry) (call self) };

    // It shows no snapshot.
    ghost plain: { (c : Self) → Plain (call c) };
}

// Decides the call on the words as they lie, stores its change and tells its answer; it answers the refusal's number, or 0. 18 for a
// table of another length and 12 for an `out` that is too short: then nothing is written.
pub fn run<C: InPlace + Drop>(table: &mut [u64], out: &mut [u64], call: C) -> u64
    ensures result_value { result ≡ number_of SLOTS table.old out.old (C.InPlace.call call) }
    ensures table_after { table.new ≡ table_left SLOTS table.old out.old (C.InPlace.call call) }
    ensures out_after { out.new ≡ out_left SLOTS table.old out.old (C.InPlace.call call) }
{
    if let Err(refusal) = shape_test(table.len(), out.len()) {
        return kinds::number_of(refusal);
    }
    let decided = call.decide(columns_in(table));
    store(table, decided.change);
    tell_plain(out, decided)
}
