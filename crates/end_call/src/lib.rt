// End: the slot becomes (0, 0), nothing else moves.
#![tactic(auto)]

ghost use Rattle.std.specs.Prelude.{◌≡◌};
ghost use Rattle.model.specs.Tables.{lent_txids};
ghost use Rattle.model.specs.Calls.{end, decision, outcome};

use kinds::{SLOTS, SlotNo, Txid};
use model::{Answer, Change, Counters, Decision, Outcome, SlotChange, Table};

// What end decides, for who owns the table in place and so makes the change there. Refusals 2, 4, 3, in this order.
#[tactic(auto, using(model::proofs::Decides::decides), unfolding(model::specs::Calls::refusal, model::specs::Calls::change_accepted, model::specs::Calls::answer_accepted))]
pub fn decide_end(txids: &[u64], was: Counters, slot: SlotNo, id: Txid) -> Decision
    ensures { result ≡ decision SLOTS (lent_txids txids.now was) (end slot id) }
{
    // Not lent as `Columns`: by its parameters the contract says which columns the call can't read.
    if let Err(refusal) = verdicts::owner_test(txids, slot, id) {
        return Decision::refused(was, refusal);
    }
    Decision {
        change: Change {
            slot: SlotChange::Leaves { slot },
            counters: was,
        },
        answer: Ok(Answer::Done),
    }
}

// By value, which copies the table: who owns it in place asks decide_end.
#[tactic(auto, using(model::proofs::Lent::outcome_of, model::proofs::Lent::lent_decides))]
pub fn end_transaction(table: Table, slot: SlotNo, id: Txid) -> Outcome
    ensures { result ≡ outcome SLOTS table (end slot id) }
{
    changes::carry_out(table, decide_end(&table.txids, table.counters, slot, id))
}
