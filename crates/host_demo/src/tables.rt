// The tables that the cases start from, reached by calls whose answers are of no interest here.
use kinds::{SLOTS, SlotNo, Stamp, Txid};
use table::Table;

pub fn begun(t: Table, id: u64) -> Table {
    table::begin_transaction(t, Stamp(id)).table
}

// The clock as given: an observation takes it there, however far that is. The sample is 1.
pub fn observed(t: Table, clock: u64) -> Table {
    table::oldest_snapshot_xmin(t, clock, 1).table
}

// Slot 0 holds 5 and retains 3; clock 9, sample 3, line 3.
pub fn one() -> Table {
    let registered = begun(table::fresh(), 5);
    let seen = table::create_transaction_snapshot(registered, SlotNo(0), Txid(5), 9, 3);
    table::vacuum(seen.table, 9, 3).table
}

// Slots 0 to 2 hold 9, 4, 7: slot 0 was another's first.
pub fn three() -> Table {
    let registered = begun(begun(begun(table::fresh(), 3), 4), 7);
    let ended = table::end_transaction(registered, SlotNo(0), Txid(3));
    begun(ended.table, 9)
}

// Every slot is taken, by 1 and so on. The clock is set by hand, so that it is P5's at any number of slots.
pub fn full() -> Table {
    let mut t = table::fresh();
    for id in 1..=SLOTS as u64 {
        t = begun(t, id);
    }
    t.counters.clock = 1200;
    t
}
