// The list: a row of six numbers for each call, refused ones included.
ghost use Rattle.std.specs.Prelude.{◌≡◌};
ghost use Rattle.ledger.specs.List.{kept_answer, kept_run};

use kinds::{CALLS, Refusal};

// One more call after the `used` ones. Refusal 19 where there is no room for it; the list stays. An array and how much of it is in use,
// and no `ArrayVec`: `kept_answer` and `kept_run` speak of these two, and of what lies past the place too.
#[tactic(auto, unfolding(crate::specs::List::kept_answer, crate::specs::List::kept_run))]
pub fn keep(calls: &mut [[u64; 6]; CALLS], used: usize, row: [u64; 6]) -> Result<usize, Refusal>
    ensures result_value { result ≡ kept_answer CALLS used }
    ensures calls_after { calls.new ≡ kept_run CALLS calls.old used row }
{
    if CALLS <= used {
        return Err(Refusal::TooManyCalls);
    }
    calls[used] = row;
    Ok(used + 1)
}
