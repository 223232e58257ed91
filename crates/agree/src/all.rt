// The two engines side by side over the records of a trace: a table that is carried along, and the list of the calls before.
ghost use Rattle.std.specs.Prelude.{ℕ, ◌≡◌, true};
ghost use Rattle.model.specs.Tables.{lent_by};
ghost use Rattle.model.specs.History.{reached};
ghost use Rattle.trace.specs.Reading.{Whole};
ghost use Rattle.trace.specs.Trace.{reading};
ghost use Rattle.step.specs.Named.{call_of};
ghost use Rattle.ledger.specs.List.{calls_of};
ghost use Rattle.agree.specs.Both.{BothFits};
ghost use Rattle.agree.specs.Traces.{is_whole};

use kinds::{CALLS, SLOTS};
use second_text::MOST;
use table::{Change, Columns};
use trace::{Record, Version};

// What a record changes in the table that lent these columns, where the second engine, which answers it from the list, prints the same.
fn run_both(version: Version, columns: Columns<'_>, r: Record, calls: &[[u64; 6]]) -> Option<Change>
    requires { lent_by columns ≡ reached SLOTS (calls_of calls.now) }
    ensures { BothFits SLOTS (lent_by columns.entry) (call_of r) result }
{
    let mut buf = [0u8; MOST];
    let ran = step::run_record(version, columns, r, &mut buf, 0);
    let end = ran.put?;
    let row = record_rows::row_of(r);
    second_text::record_agrees(version, calls, row, &buf[..end]).then_some(ran.change)
}

// Whether both engines print the same for every record, of a trace with this header: they do. A text that is no trace may have none.
fn records_agree(s: &[u8], version: Version) -> bool
    ensures { (count : ℕ) → reading s.now ≡ Whole version count → result ≡ true }
{
    let mut t = table::fresh();
    let mut calls = [[0u64; 6]; CALLS];
    let mut used = 0;
    let mut at = trace::first_record();
    // No `for`: where the next record stands is known only once this one was read.
    while at != s.len() {
        let Ok((r, next)) = reader::next_record(s, at) else {
            return false;
        };
        let Some(change) = run_both(version, t.lend(), r, &calls[..used]) else {
            return false;
        };
        let row = record_rows::row_of(r);
        let Ok(kept) = ledger::keep(&mut calls, used, row) else {
            return false;
        };
        table::store(&mut t, change);
        used = kept;
        at = next;
    }
    true
}

// Whether a text is a trace at every record of which both engines print the same. Every trace is one.
pub fn all_agree(s: &[u8]) -> bool
    ensures { result ≡ is_whole (reading s.now) }
{
    match trace_lines::read_trace(s) {
        Ok((version, _)) => records_agree(s, version),
        Err(_) => false,
    }
}
