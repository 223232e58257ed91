// The answer to a call, worked out from the list before it.
ghost use Rattle.std.specs.Prelude.{◌≡◌};
ghost use Rattle.ledger.specs.Said.{listed_by, worked_out};

use crate::retell::{lent, retell};
use kinds::SLOTS;
use model::Numbers;

// All that is printed of an answer: its numbers, the line after the call and the holder among them, and the ids that it lists.
#[derive(Clone, Copy)]
pub struct Said {
    pub numbers: Numbers,
    pub ids: [u64; SLOTS],
}

// The ids of the slots where the answer lists any.
#[tactic(auto, unfolding(crate::specs::Said::listed_by))]
fn ids_beside(count: usize, txids: [u64; SLOTS]) -> [u64; SLOTS]
    ensures { result ≡ listed_by SLOTS count txids }
{
    if count == 0 {
        return [0; SLOTS];
    }
    ledger_scans::listed_ids(txids)
}

// What the table answers to the call of this row after those of the list.
pub fn answer_to(calls: &[[u64; 6]], row: [u64; 6]) -> Said
    ensures { result ≡ worked_out SLOTS calls.now row }
{
    let t = retell(calls);
    let numbers = ledger_calls::one_call(lent(&t), row).numbers;
    Said {
        numbers,
        ids: ids_beside(numbers.count, t.txids),
    }
}
