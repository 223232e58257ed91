// A round takes a plain snapshot one tick later, and reads one place of its list.
use crate::fill::half_full;
use kinds::SLOTS;
use settled::Snapshot;

// What a round adds to the checksum. The place differs from round to round, so that the whole list has to be there.
fn marked(sum: u64, round: u64, s: &Snapshot) -> u64 {
    let at = (round % SLOTS as u64) as usize;
    let numbers = sum.wrapping_add(s.xmin).wrapping_add(s.xmax);
    numbers.wrapping_add(s.count as u64).wrapping_add(s.ids[at])
}

pub fn lent(layout: u64, rounds: u64) -> u64 {
    let mut t = half_full(layout);
    let mut sum: u64 = 0;
    for round in 0..rounds {
        let clock = t.counters.clock.saturating_add(1);
        let decided = table::decide_snap(&t.txids, t.counters, clock, clock);
        t.counters = decided.change.counters;
        sum = marked(sum, round.wrapping_add(1), &decided.snapshot);
    }
    sum
}
