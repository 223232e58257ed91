// The table check, for tables that somebody else wrote: the host's shared segment.
#![tactic(auto)]

mod numbers;
mod pins;
mod slots;

ghost use Rattle.std.specs.Prelude.{◌≡◌};
ghost use Rattle.model.specs.Check.{table_passes};
ghost use Rattle.model.specs.Tables.{lent_by};

use kinds::SLOTS;
use model::{Columns, Table};

// The check on lent columns of any length.
#[tactic(auto, unfolding(model::specs::Check::passes))]
pub fn check_columns(columns: Columns<'_>) -> bool
    ensures { result ≡ table_passes SLOTS (lent_by columns.entry) }
{
    let counters = columns.counters;
    numbers::numbers_pass(columns.txids.len(), counters)
        && slots::slots_pass(columns.txids, columns.snapshot_xmins, counters)
        && differ::txids_differ(columns.txids)
        && pins::pins_pass(columns.pins, counters)
}

// Whether a table passes the check (SPEC 6.1). Every table that calls from fresh leave does; not every table that
// passes is one, as slots (4, 4), (9, 8): while 4 is registered, no snapshot of 9 has xmin 8.
pub fn check_table(table: Table) -> bool
    ensures { result ≡ table_passes SLOTS table }
{
    check_columns(table.lend())
}
