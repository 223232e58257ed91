// The length of a table's text, before a byte of it is written.
#![tactic(auto)]

ghost use Rattle.std.specs.Prelude.{◌+◌, ◌*◌, ◌≤◌, ◌≡◌, length};
ghost use Rattle.table_text.specs.TableText.{lines_under, table_text};
ghost use Rattle.table_measure.specs.Lines.{slot_lines, counter_lines, pin_lines};

use kinds::{PINS, SLOTS};
use model::{Counters, Table};
use text_writer::digits_in;

// Two keys with their `=` and two newlines are 12 bytes.
#[tactic(auto, using(crate::proofs::Walk::slot_length))]
fn slot_length(txid: u64, xmin: u64) -> usize
    ensures value { result ≡ length (slot_lines txid xmin) }
    ensures upper_bound { result ≤ 52 }
{
    12 + digits_in(txid) + digits_in(xmin)
}

// Three keys and three newlines are 21.
#[tactic(auto, using(crate::proofs::Walk::counter_length))]
fn counter_length(counters: Counters) -> usize
    ensures value { result ≡ length (counter_lines counters) }
    ensures upper_bound { result ≤ 81 }
{
    21 + digits_in(counters.clock)
        + digits_in(counters.sampled_clock)
        + digits_in(counters.vacuum_line)
}

// A pin's key with its `=` and its newline are 5.
#[tactic(auto, using(crate::proofs::Walk::pin_counted, crate::proofs::Walk::pins_over))]
fn pins_length(table: &Table) -> usize
    ensures value { result ≡ length (pin_lines table.now.pins table.now.counters) }
    ensures upper_bound { result ≤ 25 * PINS + 81 }
{
    let mut total = 0;
    for &xmin in &table.pins {
        total += 5 + digits_in(xmin);
    }
    total + counter_length(table.counters)
}

// All lines under line 1.
fn length_under(table: &Table) -> usize
    ensures value { let t = table.now in result ≡ length (lines_under t.txids t.snapshot_xmins t.pins t.counters) }
    ensures upper_bound { result ≤ 52 * SLOTS + 25 * PINS + 81 }
{
    let mut total = 0;
    for (&txid, &xmin) in table.txids.iter().zip(&table.snapshot_xmins) {
        total += slot_length(txid, xmin);
    }
    total + pins_length(table)
}

// How many bytes the text of a table has.
#[tactic(auto, using(crate::proofs::Walk::table_length))]
pub fn table_length(table: Table) -> usize
    ensures { result ≡ length (table_text table) }
{
    13 + length_under(&table)
}
