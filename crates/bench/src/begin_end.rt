// A round begins a transaction and ends it again.
use crate::fill::half_full;
use kinds::{Refusal, SlotNo, Stamp, Txid};
use table::Answer;

// What a round adds to the checksum, where the end was accepted.
fn marked(sum: u64, slot: SlotNo, id: Txid, ended: Result<Answer, Refusal>) -> u64 {
    if ended.is_err() {
        return sum;
    }
    sum.wrapping_add(slot.0 as u64).wrapping_add(id.0)
}

pub fn by_value(layout: u64, rounds: u64) -> u64 {
    let mut t = half_full(layout);
    let mut sum: u64 = 0;
    for _ in 0..rounds {
        let begun = table::begin_transaction(t, Stamp(t.counters.clock));
        t = begun.table;
        let Ok(Answer::Begun { slot, id }) = begun.answer else {
            continue;
        };
        let ended = table::end_transaction(t, slot, id);
        t = ended.table;
        sum = marked(sum, slot, id, ended.answer);
    }
    sum
}

pub fn lent(layout: u64, rounds: u64) -> u64 {
    let mut t = half_full(layout);
    let mut sum: u64 = 0;
    for _ in 0..rounds {
        let begun = table::decide_begin(&t.txids, t.counters, Stamp(t.counters.clock));
        table::store(&mut t, begun.change);
        let Ok(Answer::Begun { slot, id }) = begun.answer else {
            continue;
        };
        let ended = table::decide_end(&t.txids, t.counters, slot, id);
        table::store(&mut t, ended.change);
        sum = marked(sum, slot, id, ended.answer);
    }
    sum
}
