// Begin: reserve, then the lowest empty slot becomes (n, n).
#![tactic(auto)]

ghost use Rattle.std.specs.Prelude.{◌≡◌};
ghost use Rattle.model.specs.Tables.{lent_txids};
ghost use Rattle.model.specs.Calls.{begin, decision, outcome};

use kinds::{Refusal, SLOTS, SlotNo, Stamp};
use model::{Answer, Change, Counters, Decision, Outcome, SlotChange, Table};

// What begin decides, for who owns the table in place and so makes the change there. Refusals 5, 6, 13, 1, in this order;
// refusal 1 still consumes the txid.
#[tactic(auto, using(crate::proofs::Begins::begins, model::proofs::Tests::reserves))]
pub fn decide_begin(txids: &[u64], was: Counters, number: Stamp) -> Decision
    ensures { result ≡ decision SLOTS (lent_txids txids.now was) (begin number) }
{
    // Not lent as `Columns`: by its parameters the contract says which columns the call can't read.
    if let Err(refusal) = clock_verdicts::reservation_test(was.clock, number) {
        return Decision::refused(was, refusal);
    }
    let id = kinds::txid_of_stamp(number);
    let counters = counters::reserved(was, number);
    let at = scans::lowest_empty(txids);
    if SLOTS <= at {
        return Decision::refused(counters, Refusal::NoFreeSlot(id));
    }
    let slot = SlotNo(at as u16);
    Decision {
        change: Change {
            slot: SlotChange::Enters { slot, txid: id },
            counters,
        },
        answer: Ok(Answer::Begun { slot, id }),
    }
}

// By value, which copies the table: who owns it in place asks decide_begin.
#[tactic(auto, using(model::proofs::Lent::outcome_of, model::proofs::Lent::lent_decides))]
pub fn begin_transaction(table: Table, number: Stamp) -> Outcome
    ensures { result ≡ outcome SLOTS table (begin number) }
{
    changes::carry_out(table, decide_begin(&table.txids, table.counters, number))
}
