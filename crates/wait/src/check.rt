// The check of a wait: its text, the entry table, the owner, its steps, in this order.
ghost use Rattle.std.specs.Prelude.{◌≡◌};
ghost use Rattle.kinds.specs.Verdicts.{then};
ghost use Rattle.model.specs.Tables.{lent_by};
ghost use Rattle.wait.specs.Waits.{answer_by, entry_test, holder_test, wait_of};

use crate::{Registration, WaitAnswer};
use kinds::{Refusal, SLOTS};
use model::{Columns, Table};

// Refusals 21, then 2, 4, 3.
fn entry_test(columns: Columns<'_>, owner: Option<Registration>) -> Result<(), Refusal>
    ensures { result ≡ then (entry_test SLOTS (lent_by columns.entry)) (holder_test SLOTS (lent_by columns.entry) owner) }
{
    if !table_check::check_columns(columns) {
        return Err(Refusal::BadEntry);
    }
    match owner {
        None => Ok(()),
        Some(own) => verdicts::owner_test(columns.txids, own.slot, own.id),
    }
}

// The table at the end of the wait, or what refuses it.
fn table_after(table: Table, owner: Option<Registration>, s: &[u8]) -> Result<Table, Refusal>
    ensures { answer_by table result ≡ wait_of SLOTS table owner s.now }
{
    events::read_wait(s).map_err(|line| Refusal::BadTrace(line as u64))?;
    entry_test(table.lend(), owner)?;
    crate::run::run_steps(table, owner, s)
}

// What is answered to what others did while one waited. The answered table is evidence about the owner's slot: a vacuum
// that ran meanwhile can't be told, so it is no table to go on from.
pub fn check_wait(table: Table, owner: Option<Registration>, s: &[u8]) -> WaitAnswer
    ensures { result ≡ wait_of SLOTS table owner s.now }
{
    let (table, verdict) = match table_after(table, owner, s) {
        Ok(end) => (end, Ok(())),
        Err(r) => (table, Err(r)),
    };
    WaitAnswer { table, verdict }
}
