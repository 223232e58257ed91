// The four calls as values: what each decides on a table's columns.
ghost use Rattle.model.specs.Calls.{begin, end, stamp, finish};
ghost use Rattle.place.specs.Plain.{begins, ends, stamps, finishes};

use kinds::{SlotNo, Stamp, Txid};
use model::{Columns, Decision};
use place::InPlace;

// Begin with a number.
#[derive(Clone, Copy)]
pub struct Begin(pub Stamp);

impl InPlace for Begin {
    ghost call = { λ c. begin c.0 };

    ghost plain = { λ c. begins c.0 };

    fn decide(self, columns: Columns<'_>) -> Decision {
        table::decide_begin(columns.txids, columns.counters, self.0)
    }
}

// End the registration of an id in its slot.
#[derive(Clone, Copy)]
pub struct End(pub SlotNo, pub Txid);

impl InPlace for End {
    ghost call = { λ c. end c.0 c.1 };

    ghost plain = { λ c. ends c.0 c.1 };

    fn decide(self, columns: Columns<'_>) -> Decision {
        table::decide_end(columns.txids, columns.counters, self.0, self.1)
    }
}

// Take a stamp.
#[derive(Clone, Copy)]
pub struct Publish(pub Stamp);

impl InPlace for Publish {
    ghost call = { λ c. stamp c.0 };

    ghost plain = { λ c. stamps c.0 };

    fn decide(self, columns: Columns<'_>) -> Decision {
        table::decide_stamp(columns.counters, self.0)
    }
}

// End a registration and take a stamp.
#[derive(Clone, Copy)]
pub struct Finish(pub SlotNo, pub Txid, pub Stamp);

impl InPlace for Finish {
    ghost call = { λ c. finish c.0 c.1 c.2 };

    ghost plain = { λ c. finishes c.0 c.1 c.2 };

    fn decide(self, columns: Columns<'_>) -> Decision {
        table::decide_finish(columns.txids, columns.counters, self.0, self.1, self.2)
    }
}
