// The two calls as values: what each decides on a table's columns.
ghost use Rattle.model.specs.Calls.{oldest, vacuum};
ghost use Rattle.place.specs.Plain.{asks_oldest, vacuums};

use model::{Columns, Decision};
use place::InPlace;

// Ask for the oldest retained xmin.
#[derive(Clone, Copy)]
pub struct Oldest {
    pub clock: u64,
    pub sample: u64,
}

impl InPlace for Oldest {
    ghost call = { λ c. oldest c.clock c.sample };

    ghost plain = { λ c. asks_oldest c.clock c.sample };

    fn decide(self, columns: Columns<'_>) -> Decision {
        table::decide_oldest(columns, self.clock, self.sample)
    }
}

// Raise the line.
#[derive(Clone, Copy)]
pub struct Vacuum {
    pub clock: u64,
    pub sample: u64,
}

impl InPlace for Vacuum {
    ghost call = { λ c. vacuum c.clock c.sample };

    ghost plain = { λ c. vacuums c.clock c.sample };

    fn decide(self, columns: Columns<'_>) -> Decision {
        table::decide_vacuum(columns, self.clock, self.sample)
    }
}
