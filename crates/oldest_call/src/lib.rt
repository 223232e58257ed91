// The oldest retained xmin: the smallest of sample, the snapshot_xmin of taken slots and the taken pins, after the observation;
// and who holds it.
#![tactic(auto)]

ghost use Rattle.std.specs.Prelude.{◌≡◌};
ghost use Rattle.model.specs.Tables.{lent_by};
ghost use Rattle.model.specs.Calls.{oldest, decision, outcome};

use kinds::SLOTS;
use model::{Answer, Change, Columns, Decision, Outcome, SlotChange, Table};

// On lent columns. Refusals 7, 8, in this order.
#[tactic(auto, using(model::proofs::Decides::decides), unfolding(model::specs::Calls::refusal, model::specs::Calls::change_accepted, model::specs::Calls::answer_accepted))]
pub fn decide_oldest(columns: Columns<'_>, clock: u64, sample: u64) -> Decision
    ensures { result ≡ decision SLOTS (lent_by columns.entry) (oldest clock sample) }
{
    let was = columns.counters;
    if let Err(refusal) = clock_verdicts::observation_test(was.clock, clock, sample) {
        return Decision::refused(was, refusal);
    }
    let xmin = horizon::oldest_of(columns, sample);
    let holder = horizon::holder_of(columns, xmin);
    Decision {
        change: Change {
            slot: SlotChange::Stays,
            counters: counters::observed(was, clock, sample),
        },
        answer: Ok(Answer::Oldest { xmin, holder }),
    }
}

// On a table by value.
#[tactic(auto, using(model::proofs::Lent::outcome_of))]
pub fn oldest_snapshot_xmin(table: Table, clock: u64, sample: u64) -> Outcome
    ensures { result ≡ outcome SLOTS table (oldest clock sample) }
{
    changes::carry_out(table, decide_oldest(table.lend(), clock, sample))
}
