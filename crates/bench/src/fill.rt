// Half-full tables in two layouts.
use kinds::SLOTS;
use table::Table;

// Layout 0 takes the lower half of the slots, any other takes every second slot.
fn is_taken(layout: u64, slot: usize) -> bool {
    // A number and no enum: C hands it in.
    if layout == 0 {
        return slot < SLOTS / 2;
    }
    slot % 2 == 0
}

// Slot i is empty or holds (i + 1, i + 1), as if all had begun in order and half had ended.
pub fn half_full(layout: u64) -> Table {
    let mut t = table::fresh();
    for slot in 0..SLOTS {
        if is_taken(layout, slot) {
            let id = slot as u64 + 1;
            t.txids[slot] = id;
            t.snapshot_xmins[slot] = id;
        }
    }
    t.counters.clock = SLOTS as u64 + 1;
    t
}
