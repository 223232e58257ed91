// The two calls as values: how each is tested on a table's columns.
ghost use Rattle.std.specs.Prelude.{refl};
ghost use Rattle.model.specs.Calls.{snap, own};

use kinds::{Refusal, SlotNo, Txid};
use model::Columns;
use place_answers::{Passed, Retainer, Shows};

// Take a plain snapshot.
#[derive(Clone, Copy)]
pub struct Snap {
    pub clock: u64,
    pub sample: u64,
}

impl Shows for Snap {
    ghost call = { λ c. snap c.clock c.sample };

    ghost registers = { λ c. refl };

    fn test(self, columns: Columns<'_>) -> Result<Passed, Refusal> {
        let was = columns.counters;
        clock_verdicts::observation_test(was.clock, self.clock, self.sample)?;
        Ok(Passed {
            sample: self.sample,
            retainer: Retainer::Nobody,
            counters: counters::observed(was, self.clock, self.sample),
        })
    }
}

// Take the snapshot of the transaction that is registered so.
#[derive(Clone, Copy)]
pub struct Own {
    pub slot: SlotNo,
    pub id: Txid,
    pub clock: u64,
    pub sample: u64,
}

impl Shows for Own {
    ghost call = { λ c. own c.slot c.id c.clock c.sample };

    ghost registers = { λ c. refl };

    fn test(self, columns: Columns<'_>) -> Result<Passed, Refusal> {
        let was = columns.counters;
        own_call::own_test(
            columns.txids,
            was,
            self.slot,
            self.id,
            self.clock,
            self.sample,
        )?;
        Ok(Passed {
            sample: self.sample,
            retainer: Retainer::Slot(self.slot),
            counters: counters::observed(was, self.clock, self.sample),
        })
    }
}
