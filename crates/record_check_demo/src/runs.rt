// The runs that the cases start from, and the check of one.
ghost use Rattle.std.specs.Prelude.{◌≡◌, ◌<◌, ◌≤◌, length, take};
ghost use Rattle.record_check.specs.Run.{run_passes};

use kinds::SLOTS;
use record_check::{Rest, Slot, check_run};
use std::array;

// Room for one record more than a table has slots.
pub const ROOM: usize = SLOTS + 1;

const EMPTY: Slot = Slot {
    txid: 0,
    snapshot_xmin: 0,
};

// No slot is taken.
pub fn empty() -> [Slot; ROOM] {
    [EMPTY; ROOM]
}

// One record replaced.
pub(crate) fn put(mut run: [Slot; ROOM], at: usize, txid: u64, snapshot_xmin: u64) -> [Slot; ROOM]
    requires { at < length run }
{
    run[at] = Slot {
        txid,
        snapshot_xmin,
    };
    run
}

// What stands beside the slots: all pins free.
pub fn beside(clock: u64, sample: u64, line: u64) -> Rest {
    Rest {
        pins: kinds::free_pins(),
        clock,
        sample,
        line,
    }
}

// One pin replaced, where there is one.
pub fn pinned(mut rest: Rest, k: usize, x: u64) -> Rest {
    if let Some(pin) = rest.pins.get_mut(k) {
        *pin = x;
    }
    rest
}

// Three slots are taken; with clock 12, sample 2 and line 4 it passes.
pub fn good() -> [Slot; ROOM] {
    put(put(put(empty(), 0, 9, 2), 1, 4, 4), 2, 7, 5)
}

// Each slot is taken, slot i by i + 1.
pub fn full() -> [Slot; ROOM] {
    array::from_fn(|i| {
        if i == SLOTS {
            return EMPTY;
        }
        let id = i as u64 + 1;
        Slot {
            txid: id,
            snapshot_xmin: id,
        }
    })
}

// The check of the first `count` records. It stays: a part of what a call answers, lent straight in an argument, got no proof.
pub(crate) fn check_first(run: [Slot; ROOM], count: usize, rest: Rest) -> bool
    requires { count ≤ length run }
    ensures { result ≡ run_passes SLOTS (take count run) rest }
{
    check_run(&run[..count], rest)
}
