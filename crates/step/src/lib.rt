// One record of a trace: its call decided on the lent columns, and its answer written. The change is the caller's to make.
#![tactic(auto)]

mod listing;
mod put;
mod record;

ghost use Rattle.std.specs.Prelude.{◌≡◌};
ghost use Rattle.step.specs.Step.{nothing_ran};

pub use record::run_record;
use table::{Change, Counters, SlotChange};

// Where the answer's text ends, or that it had no room; and what the call changes.
#[derive(Clone, Copy)]
pub struct Ran {
    // The change stands beside `None` too: on columns of no table it is that nothing changes.
    pub put: Option<usize>,
    pub change: Change,
}

impl Ran {
    // Nothing was put, and nothing changes.
    fn nothing(was: Counters) -> Ran
        ensures { result ≡ nothing_ran was }
    {
        Ran {
            put: None,
            change: Change {
                slot: SlotChange::Stays,
                counters: was,
            },
        }
    }
}
