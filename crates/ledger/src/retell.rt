// The list told from its first call on.
ghost use Rattle.std.specs.Prelude.{◌≡◌, set};
ghost use Rattle.model.specs.Tables.{fresh_table, lent_by};
ghost use Rattle.model.specs.History.{reached};
ghost use Rattle.ledger_calls.specs.Deeds.{left};
ghost use Rattle.ledger.specs.List.{calls_of};

use kinds::{PINS, SLOTS};
use ledger_calls::{Deed, Moved};
use model::{Columns, Counters, Table};

// Before the first call. It is of its own: the second engine shares no code with the table's.
fn nobody() -> Table
    ensures { result ≡ fresh_table SLOTS }
{
    Table {
        txids: [0; SLOTS],
        snapshot_xmins: [0; SLOTS],
        pins: [0; PINS],
        counters: Counters {
            clock: 1,
            sampled_clock: 1,
            vacuum_line: 1,
        },
    }
}

// The columns of the scratch, lent. `Table::lend` is the table's own.
pub fn lent(t: &Table) -> Columns<'_>
    ensures { lent_by result ≡ t.now }
{
    Columns {
        txids: &t.txids,
        snapshot_xmins: &t.snapshot_xmins,
        pins: &t.pins,
        counters: t.counters,
    }
}

// The number of a slot or a pin, where there is such a one. The table's stores are `changes`'.
fn note(column: &mut [u64], place: usize, x: u64)
    ensures { column.new ≡ set column.old place x }
{
    if place < column.len() {
        column[place] = x;
    }
}

// What a call did becomes the table.
fn carry(t: &mut Table, deed: Deed)
    ensures { t.new ≡ left t.old deed }
{
    match deed.moved {
        Moved::Nothing => {}
        Moved::Slot { place, txid, xmin } => {
            note(&mut t.txids, place, txid);
            note(&mut t.snapshot_xmins, place, xmin);
        }
        Moved::Pin { pin, held } => note(&mut t.pins, pin, held),
    }
    t.counters = deed.counters;
}

// What the calls of the list leave, one after the other: a scratch that lives as long as one answer takes.
pub fn retell(calls: &[[u64; 6]]) -> Table
    ensures { result ≡ reached SLOTS (calls_of calls.now) }
{
    let mut t = nobody();
    for &row in calls {
        let did = ledger_calls::one_call(lent(&t), row);
        carry(&mut t, did.deed);
    }
    t
}
