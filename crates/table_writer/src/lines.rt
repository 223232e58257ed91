// The lines of a table's text, written at a place where the caller has seen that they have room.
ghost use Rattle.std.specs.Prelude.{◌+◌, ◌≤◌, length};
ghost use Rattle.text.specs.Placed.{Placed};
ghost use Rattle.table_text.specs.TableText.{header, lines_under};
ghost use Rattle.table_measure.specs.Lines.{slot_lines, counter_lines, pin_lines};

use model::{Counters, Table};
use text_writer::line;

// Line 1 is a key and a number too.
pub fn first_line(buf: &mut [u8], at: usize) -> usize
    requires { at + length header ≤ length buf.old }
    ensures { Placed buf.old at header buf.new result }
{
    line(buf, at, b"table=proc-", 1)
}

fn slot_lines(buf: &mut [u8], at: usize, txid: u64, xmin: u64) -> usize
    requires { at + length (slot_lines txid xmin) ≤ length buf.old }
    ensures { Placed buf.old at (slot_lines txid xmin) buf.new result }
{
    let a = line(buf, at, b"txid=", txid);
    line(buf, a, b"xmin=", xmin)
}

fn counter_lines(buf: &mut [u8], at: usize, counters: Counters) -> usize
    requires { at + length (counter_lines counters) ≤ length buf.old }
    ensures { Placed buf.old at (counter_lines counters) buf.new result }
{
    let a = line(buf, at, b"clock=", counters.clock);
    let b = line(buf, a, b"sample=", counters.sampled_clock);
    line(buf, b, b"line=", counters.vacuum_line)
}

// The lines after the slots: pin after pin, then the counters.
fn pin_lines(buf: &mut [u8], at: usize, table: &Table) -> usize
    requires { at + length (pin_lines table.now.pins table.now.counters) ≤ length buf.old }
    ensures { Placed buf.old at (pin_lines table.now.pins table.now.counters) buf.new result }
{
    let mut past = at;
    for &xmin in &table.pins {
        past = line(buf, past, b"pin=", xmin);
    }
    counter_lines(buf, past, table.counters)
}

// All lines under line 1: slot after slot, then those of pins and counters.
pub fn lines_under(buf: &mut [u8], at: usize, table: &Table) -> usize
    requires { let t = table.now in at + length (lines_under t.txids t.snapshot_xmins t.pins t.counters) ≤ length buf.old }
    ensures { let t = table.now in Placed buf.old at (lines_under t.txids t.snapshot_xmins t.pins t.counters) buf.new result }
{
    let mut past = at;
    for (&txid, &xmin) in table.txids.iter().zip(&table.snapshot_xmins) {
        past = slot_lines(buf, past, txid, xmin);
    }
    pin_lines(buf, past, table)
}
