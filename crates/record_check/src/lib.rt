// The table check over a lent run of slot records: the host's shared segment, read where it lies.
#![tactic(auto)]

ghost use Rattle.std.specs.Prelude.{◌≡◌, length};
ghost use Rattle.record_check.specs.Run.{run_passes, txids_of, xmins_of};

use kinds::{PINS, SLOTS};
use model::{Counters, Table};
use std::array;

// One slot of the segment, laid out as the host lays it out.
#[repr(C)]
#[derive(Clone, Copy)]
pub struct Slot {
    pub txid: u64,
    pub snapshot_xmin: u64,
}

// What a table has beside its slots, laid out as the host lays it out: there are as many pins as a table has, by their type.
#[repr(C)]
#[derive(Clone, Copy)]
pub struct Rest {
    pub pins: [u64; PINS],
    pub clock: u64,
    pub sample: u64,
    pub line: u64,
}

// The txids of as many records as a table has slots.
fn txids_of(slots: &[Slot]) -> [u64; SLOTS]
    requires { length slots.now ≡ SLOTS }
    ensures { result ≡ txids_of slots.now }
{
    array::from_fn(|i| slots[i].txid)
}

// Their snapshot_xmins.
fn xmins_of(slots: &[Slot]) -> [u64; SLOTS]
    requires { length slots.now ≡ SLOTS }
    ensures { result ≡ xmins_of slots.now }
{
    array::from_fn(|i| slots[i].snapshot_xmin)
}

// The table check of a lent run of any length. A run of another length than a table's is refused before a record is read.
pub fn check_run(slots: &[Slot], rest: Rest) -> bool
    ensures { result ≡ run_passes SLOTS slots.now rest }
{
    if slots.len() != SLOTS {
        return false;
    }
    let pins = rest.pins;
    table_check::check_table(Table {
        txids: txids_of(slots),
        snapshot_xmins: xmins_of(slots),
        pins,
        counters: Counters {
            clock: rest.clock,
            sampled_clock: rest.sample,
            vacuum_line: rest.line,
        },
    })
}
