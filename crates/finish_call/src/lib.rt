// Finish: end and stamp in one section. All checks come first, so a bad stamp leaves the transaction registered.
#![tactic(auto)]

ghost use Rattle.std.specs.Prelude.{◌≡◌};
ghost use Rattle.kinds.specs.Verdicts.{then};
ghost use Rattle.model.specs.Tables.{lent_txids};
ghost use Rattle.model.specs.Tests.{owner_test, reservation_test};
ghost use Rattle.model.specs.Calls.{finish, decision, outcome};

use kinds::{Refusal, SLOTS, SlotNo, Stamp, Txid};
use model::{Answer, Change, Counters, Decision, Outcome, SlotChange, Table};

// Refusals 2, 4, 3, 5, 6, 13, in this order.
fn finish_test(
    txids: &[u64],
    clock: u64,
    slot: SlotNo,
    id: Txid,
    number: Stamp,
) -> Result<(), Refusal>
    ensures { result ≡ then (owner_test SLOTS txids.now slot id) (reservation_test clock number) }
{
    verdicts::owner_test(txids, slot, id)?;
    clock_verdicts::reservation_test(clock, number)
}

// What finish decides, for who owns the table in place and so makes the change there.
#[tactic(auto, using(model::proofs::Decides::decides, model::proofs::Tests::reserves), unfolding(model::specs::Calls::refusal, model::specs::Calls::change_accepted, model::specs::Calls::answer_accepted))]
pub fn decide_finish(
    txids: &[u64],
    was: Counters,
    slot: SlotNo,
    id: Txid,
    number: Stamp,
) -> Decision
    ensures { result ≡ decision SLOTS (lent_txids txids.now was) (finish slot id number) }
{
    // Not lent as `Columns`: by its parameters the contract says which columns the call can't read.
    if let Err(refusal) = finish_test(txids, was.clock, slot, id, number) {
        return Decision::refused(was, refusal);
    }
    Decision {
        change: Change {
            slot: SlotChange::Leaves { slot },
            counters: counters::reserved(was, number),
        },
        answer: Ok(Answer::Stamped(number)),
    }
}

// By value, which copies the table: who owns it in place asks decide_finish.
#[tactic(auto, using(model::proofs::Lent::outcome_of, model::proofs::Lent::lent_decides))]
pub fn finish_transaction(table: Table, slot: SlotNo, id: Txid, number: Stamp) -> Outcome
    ensures { result ≡ outcome SLOTS table (finish slot id number) }
{
    let decided = decide_finish(&table.txids, table.counters, slot, id, number);
    changes::carry_out(table, decided)
}
