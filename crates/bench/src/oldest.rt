// A round asks for the oldest retained xmin, one tick later.
use crate::fill::half_full;
use kinds::Refusal;
use table::Answer;

// What a round adds to the checksum.
fn marked(sum: u64, answer: Result<Answer, Refusal>) -> u64 {
    match answer {
        Ok(Answer::Oldest { xmin, holder }) => sum.wrapping_add(xmin).wrapping_add(holder),
        _ => sum,
    }
}

pub fn lent(layout: u64, rounds: u64) -> u64 {
    let mut t = half_full(layout);
    let mut sum: u64 = 0;
    for _ in 0..rounds {
        let clock = t.counters.clock.saturating_add(1);
        let decided = table::decide_oldest(t.lend(), clock, clock);
        t.counters = decided.change.counters;
        sum = marked(sum, decided.answer);
    }
    sum
}
