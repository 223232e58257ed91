// The calls that observe the clock, and the release of a pin.
ghost use Rattle.std.specs.Prelude.{◌≡◌};
ghost use Rattle.kinds.specs.Kinds.{slot, txid, pin_no};
ghost use Rattle.model.specs.Tables.{lent_by};
ghost use Rattle.model.specs.Calls.{snap, own, oldest, vacuum, pin, unpin};
ghost use Rattle.ledger_calls.specs.Deeds.{or_refused, did_by};

use crate::Did;
use crate::parts::{accepted, held, in_pin, in_slot, plain, seen, shown, stays};
use kinds::{PINS, SLOTS, Told};
use model::{Columns, Counters};

// A snapshot that nobody keeps.
pub fn snapped(columns: Columns<'_>, clock: u64, sample: u64) -> Result<Did, Told>
    ensures { or_refused columns.entry.counters result
        ≡ did_by SLOTS (lent_by columns.entry) (snap clock sample) }
{
    let was = columns.counters;
    ledger_tests::observation(was.clock, clock, sample)?;
    let flight = ledger_scans::in_flight(columns.txids, sample);
    let numbers = shown(accepted(0, 0), flight, was.vacuum_line);
    Ok(stays(numbers, seen(was, clock, sample)))
}

// The transaction's own snapshot: its slot retains the xmin of the last one.
pub fn owned(columns: Columns<'_>, at: u64, id: u64, clock: u64, sample: u64) -> Result<Did, Told>
    ensures { or_refused columns.entry.counters result
        ≡ did_by SLOTS (lent_by columns.entry) (own (slot at) (txid id) clock sample) }
{
    let was = columns.counters;
    ledger_tests::owner(columns.txids, at, id)?;
    ledger_tests::observation(was.clock, clock, sample)?;
    let flight = ledger_scans::in_flight(columns.txids, sample);
    let numbers = shown(accepted(0, 0), flight, was.vacuum_line);
    let counters = seen(was, clock, sample);
    Ok(in_slot(numbers, at as usize, id, flight.xmin, counters))
}

// The oldest retained xmin, and its holder.
pub fn oldest_found(columns: Columns<'_>, clock: u64, sample: u64) -> Result<Did, Told>
    ensures { or_refused columns.entry.counters result
        ≡ did_by SLOTS (lent_by columns.entry) (oldest clock sample) }
{
    let was = columns.counters;
    ledger_tests::observation(was.clock, clock, sample)?;
    let found = ledger_scans::held_back(columns, sample);
    let numbers = held(found.xmin, found.holder, was.vacuum_line);
    Ok(stays(numbers, seen(was, clock, sample)))
}

// .. to which the line goes up, and never down.
pub fn vacuumed(columns: Columns<'_>, clock: u64, sample: u64) -> Result<Did, Told>
    ensures { or_refused columns.entry.counters result
        ≡ did_by SLOTS (lent_by columns.entry) (vacuum clock sample) }
{
    let was = columns.counters;
    ledger_tests::observation(was.clock, clock, sample)?;
    let found = ledger_scans::held_back(columns, sample);
    let line = was.vacuum_line.max(found.xmin);
    let counters = Counters {
        vacuum_line: line,
        ..seen(was, clock, sample)
    };
    Ok(stays(held(0, found.holder, line), counters))
}

// A pinned snapshot is taken with the larger of sample and line, and the lowest free pin holds its xmin.
pub fn pinned(columns: Columns<'_>, clock: u64, sample: u64) -> Result<Did, Told>
    ensures { or_refused columns.entry.counters result
        ≡ did_by SLOTS (lent_by columns.entry) (pin clock sample) }
{
    let was = columns.counters;
    ledger_tests::observation(was.clock, clock, sample)?;
    let free = ledger_scans::lowest_free(columns.pins);
    if PINS <= free {
        return Err(Told {
            number: 14,
            slot: 0,
            id: 0,
            seen: 0,
            at: 0,
        });
    }
    let used = sample.max(was.vacuum_line);
    let flight = ledger_scans::in_flight(columns.txids, used);
    let numbers = shown(accepted(free as u64, 0), flight, was.vacuum_line);
    let counters = seen(was, clock, sample);
    Ok(in_pin(numbers, free, flight.xmin, counters))
}

// The pin is free again.
pub fn unpinned(columns: Columns<'_>, at: u64) -> Result<Did, Told>
    ensures { or_refused columns.entry.counters result
        ≡ did_by SLOTS (lent_by columns.entry) (unpin (pin_no at)) }
{
    let was = columns.counters;
    ledger_tests::release(columns.pins, at)?;
    let numbers = plain(accepted(0, 0), was.vacuum_line);
    Ok(in_pin(numbers, at as usize, 0, was))
}
