// The jobs that bench/ times: each is done over and over on a half-full table, and answers a checksum. All lend the columns;
// begin and end also pass the table by value, which shows what its copies cost.
#![tactic(auto)]

mod begin_end;
mod fill;
mod oldest;
mod snapshot;

ghost use Rattle.std.specs.Prelude.{◌≡◌};

use kinds::SLOTS;

// How many slots the measured tables have.
#[unsafe(no_mangle)]
pub extern "C" fn bench_slots() -> u64
    ensures { result ≡ SLOTS }
{
    SLOTS as u64
}

// Begin and end, the table passed by value.
#[unsafe(no_mangle)]
pub extern "C" fn bench_begin_end_by_value(layout: u64, rounds: u64) -> u64 {
    begin_end::by_value(layout, rounds)
}

// Begin and end, the columns lent.
#[unsafe(no_mangle)]
pub extern "C" fn bench_begin_end_lent(layout: u64, rounds: u64) -> u64 {
    begin_end::lent(layout, rounds)
}

// A plain snapshot, the column lent.
#[unsafe(no_mangle)]
pub extern "C" fn bench_snapshot_lent(layout: u64, rounds: u64) -> u64 {
    snapshot::lent(layout, rounds)
}

// The oldest retained xmin, the columns lent.
#[unsafe(no_mangle)]
pub extern "C" fn bench_oldest_lent(layout: u64, rounds: u64) -> u64 {
    oldest::lent(layout, rounds)
}
