// The publication stamp: the clock moves past it, the rest stays.
#![tactic(auto)]

ghost use Rattle.std.specs.Prelude.{◌≡◌, []};
ghost use Rattle.model.specs.Tables.{lent_txids};
ghost use Rattle.model.specs.Calls.{stamp, decision, outcome};

use kinds::{SLOTS, Stamp};
use model::{Answer, Change, Counters, Decision, Outcome, SlotChange, Table};

// What a stamp decides, for who owns the table in place and so makes the change there; it reads no slot. Refusals 5, 6, 13,
// in this order.
#[tactic(auto, using(model::proofs::Decides::decides, model::proofs::Tests::reserves), unfolding(model::specs::Calls::refusal, model::specs::Calls::change_accepted, model::specs::Calls::answer_accepted))]
pub fn decide_stamp(was: Counters, number: Stamp) -> Decision
    ensures { result ≡ decision SLOTS (lent_txids [] was) (stamp number) }
{
    if let Err(refusal) = clock_verdicts::reservation_test(was.clock, number) {
        return Decision::refused(was, refusal);
    }
    Decision {
        change: Change {
            slot: SlotChange::Stays,
            counters: counters::reserved(was, number),
        },
        answer: Ok(Answer::Stamped(number)),
    }
}

// By value, which copies the table: who owns it in place asks decide_stamp.
#[tactic(auto, using(model::proofs::Lent::outcome_of, model::proofs::Lent::lent_stamps))]
pub fn reserve_publication_clock(table: Table, number: Stamp) -> Outcome
    ensures { result ≡ outcome SLOTS table (stamp number) }
{
    changes::carry_out(table, decide_stamp(table.counters, number))
}
