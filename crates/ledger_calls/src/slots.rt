// The calls that reserve a number, or end a transaction.
ghost use Rattle.std.specs.Prelude.{◌≡◌};
ghost use Rattle.kinds.specs.Kinds.{number, slot, txid};
ghost use Rattle.model.specs.Tables.{lent_by};
ghost use Rattle.model.specs.Calls.{begin, end, stamp, finish};
ghost use Rattle.ledger_calls.specs.Deeds.{or_refused, did_by};

use crate::Did;
use crate::parts::{accepted, in_slot, past, plain, stays};
use kinds::{SLOTS, Told};
use model::Columns;

// The lowest slot that nobody has becomes (number, number). Where all are taken, refusal 1: the number is spent all the same.
pub fn begun(columns: Columns<'_>, given: u64) -> Result<Did, Told>
    ensures { or_refused columns.entry.counters result
        ≡ did_by SLOTS (lent_by columns.entry) (begin (number given)) }
{
    let was = columns.counters;
    ledger_tests::reservation(was.clock, given)?;
    let spent = past(was, given);
    let free = ledger_scans::lowest_free(columns.txids);
    if SLOTS <= free {
        let full = Told {
            number: 1,
            slot: 0,
            id: given,
            seen: 0,
            at: 0,
        };
        let numbers = plain(full, was.vacuum_line);
        return Ok(stays(numbers, spent));
    }
    let numbers = plain(accepted(free as u64, given), was.vacuum_line);
    Ok(in_slot(numbers, free, given, given, spent))
}

// The slot becomes (0, 0).
pub fn ended(columns: Columns<'_>, at: u64, id: u64) -> Result<Did, Told>
    ensures { or_refused columns.entry.counters result
        ≡ did_by SLOTS (lent_by columns.entry) (end (slot at) (txid id)) }
{
    let was = columns.counters;
    ledger_tests::owner(columns.txids, at, id)?;
    let numbers = plain(accepted(0, 0), was.vacuum_line);
    Ok(in_slot(numbers, at as usize, 0, 0, was))
}

// The number is spent, and nothing else.
pub fn stamped(columns: Columns<'_>, given: u64) -> Result<Did, Told>
    ensures { or_refused columns.entry.counters result
        ≡ did_by SLOTS (lent_by columns.entry) (stamp (number given)) }
{
    let was = columns.counters;
    ledger_tests::reservation(was.clock, given)?;
    let numbers = plain(accepted(0, given), was.vacuum_line);
    Ok(stays(numbers, past(was, given)))
}

// An end and a stamp in one: the slot becomes (0, 0), and the number is spent.
pub fn finished(columns: Columns<'_>, at: u64, id: u64, given: u64) -> Result<Did, Told>
    ensures { or_refused columns.entry.counters result
        ≡ did_by SLOTS (lent_by columns.entry) (finish (slot at) (txid id) (number given)) }
{
    let was = columns.counters;
    ledger_tests::owner(columns.txids, at, id)?;
    ledger_tests::reservation(was.clock, given)?;
    let numbers = plain(accepted(0, given), was.vacuum_line);
    Ok(in_slot(numbers, at as usize, 0, 0, past(was, given)))
}
