// The release of a pin: it is free again, and nothing else moves.
#![tactic(auto)]

ghost use Rattle.std.specs.Prelude.{◌≡◌};
ghost use Rattle.model.specs.Tables.{lent_pins};
ghost use Rattle.model.specs.Calls.{unpin, decision, outcome};

use kinds::{PinNo, SLOTS};
use model::{Answer, Change, Counters, Decision, Outcome, SlotChange, Table};

// On lent pins. Refusals 15, 16, in this order.
#[tactic(auto, using(model::proofs::Decides::decides), unfolding(model::specs::Calls::refusal, model::specs::Calls::change_accepted, model::specs::Calls::answer_accepted))]
pub fn decide_unpin(pins: &[u64], was: Counters, pin: PinNo) -> Decision
    ensures { result ≡ decision SLOTS (lent_pins pins.now was) (unpin pin) }
{
    // Not lent as `Columns`: by its parameters the contract says which columns the call can't read.
    if let Err(refusal) = verdicts::release_test(pins, pin) {
        return Decision::refused(was, refusal);
    }
    Decision {
        change: Change {
            slot: SlotChange::Pins { pin, xmin: 0 },
            counters: was,
        },
        answer: Ok(Answer::Done),
    }
}

// On a table by value.
#[tactic(auto, using(model::proofs::Lent::outcome_of, model::proofs::Lent::lent_releases))]
pub fn release_pin(table: Table, pin: PinNo) -> Outcome
    ensures { result ≡ outcome SLOTS table (unpin pin) }
{
    changes::carry_out(table, decide_unpin(&table.pins, table.counters, pin))
}
