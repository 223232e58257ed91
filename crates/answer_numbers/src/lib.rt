// The numbers of an answer, case by case.
#![tactic(auto)]

ghost use Rattle.std.specs.Prelude.{◌≡◌};
ghost use Rattle.model.specs.Answers.{accepted_with, tells_of, xmin_told, holder_told, numbers_of};
ghost use Rattle.answer_numbers.specs.Plain.{plain_numbers};

use kinds::{Refusal, Told};
use model::{Answer, Decision, Numbers};

fn accepted_with(slot: u64, id: u64) -> Told
    ensures { result ≡ accepted_with slot id }
{
    Told {
        number: 0,
        slot,
        id,
        seen: 0,
        at: 0,
    }
}

#[tactic(auto, unfolding(model::specs::Answers::tells_of))]
fn tells_of(answer: Result<Answer, Refusal>) -> Told
    ensures { result ≡ tells_of answer }
{
    match answer {
        Ok(Answer::Begun { slot, id }) => accepted_with(slot.0 as u64, id.0),
        Ok(Answer::Stamped(stamp)) => accepted_with(0, stamp.0),
        Ok(Answer::Pinned(pin)) => accepted_with(pin.0 as u64, 0),
        Ok(Answer::Done | Answer::Oldest { .. } | Answer::Line { .. }) => accepted_with(0, 0),
        Err(refusal) => kinds::tell(refusal),
    }
}

// Oldest's own xmin; for every other answer, that of the snapshot beside it.
#[tactic(auto, unfolding(model::specs::Answers::xmin_told))]
fn xmin_told(answer: Result<Answer, Refusal>, xmin: u64) -> u64
    ensures { result ≡ xmin_told answer xmin }
{
    match answer {
        Ok(Answer::Oldest { xmin: found, .. }) => found,
        _ => xmin,
    }
}

// Whom oldest and vacuum name; 0 for every other answer.
#[tactic(auto, unfolding(model::specs::Answers::holder_told))]
fn holder_told(answer: Result<Answer, Refusal>) -> u64
    ensures { result ≡ holder_told answer }
{
    match answer {
        Ok(Answer::Oldest { holder, .. } | Answer::Line { holder, .. }) => holder,
        _ => 0,
    }
}

// The numbers of an answer beside its snapshot's (zeros where it shows none) and the vacuum line after the call.
#[tactic(auto, unfolding(model::specs::Answers::numbers_of))]
pub fn numbers_of(
    answer: Result<Answer, Refusal>,
    xmin: u64,
    xmax: u64,
    count: usize,
    vacuum_line: u64,
) -> Numbers
    ensures { result ≡ numbers_of answer xmin xmax count vacuum_line }
{
    // xmin, xmax and count come one by one: of a snapshot, of what was taken without its ids, or as zeros.
    Numbers {
        told: tells_of(answer),
        xmin: xmin_told(answer, xmin),
        xmax,
        vacuum_line,
        count,
        holder: holder_told(answer),
    }
}

// Of a call that shows no snapshot.
pub fn plain_numbers(decided: Decision) -> Numbers
    ensures { result ≡ plain_numbers decided }
{
    let line = decided.change.counters.vacuum_line;
    numbers_of(decided.answer, 0, 0, 0, line)
}
