// A run of rows, judged and measured: which record a row is, and how long the run's text is. A writer asks before it
// writes a byte.
#![tactic(auto)]

ghost use Rattle.std.specs.Prelude.{◌≡◌, length};
ghost use Rattle.trace.specs.Record.{record_text};
ghost use Rattle.rows_measure.specs.Measuring.{row_under, measured};
ghost use Rattle.rows_measure.specs.TwoLines.{op_and_slot_key};

use text_writer::digits_in;
use trace::{Op, Record, Version};

// Any length above the longest stands for all of them, so that no sum can pass the machine's numbers.
const TOO_LONG: usize = 65537;

// The record that a row is under a header.
pub fn row_under(version: Version, row: [u64; 6]) -> Option<Record>
    ensures { result ≡ row_under version row }
{
    let r = record_rows::record_of(row).ok()?;
    trace::allows(version, r.op).then_some(r)
}

// The lines of an op and of its slot are one key and one number. This is their key.
pub fn op_and_slot_key(op: Op) -> &'static [u8]
    ensures { result.now ≡ op_and_slot_key op }
{
    match op {
        Op::Begin => b"op=begin\nslot=",
        Op::End => b"op=end\nslot=",
        Op::Snap => b"op=snap\nslot=",
        Op::Own => b"op=own\nslot=",
        Op::Oldest => b"op=oldest\nslot=",
        Op::Vacuum => b"op=vacuum\nslot=",
        Op::Stamp => b"op=stamp\nslot=",
        Op::Finish => b"op=finish\nslot=",
        Op::Pin => b"op=pin\nslot=",
        Op::Unpin => b"op=unpin\nslot=",
    }
}

// The keys of the other four lines with their `=`, and five newlines, are 27 bytes.
fn record_length(r: Record) -> usize
    ensures { result ≡ length (record_text r) }
{
    let key = op_and_slot_key(r.op).len();
    let slot = digits_in(r.slot as u64);
    let id = digits_in(r.id);
    let stamp = digits_in(r.stamp);
    let clock = digits_in(r.clock);
    let sample = digits_in(r.sample);
    27 + key + slot + id + stamp + clock + sample
}

// A bad row is looked for in the whole run, also where the text is known to be too long: 20 comes before 12.
pub fn measure(version: Version, rows: &[[u64; 6]]) -> Option<usize>
    ensures { result ≡ measured version rows.now }
{
    let mut total = trace::first_record();
    for row in rows {
        let r = row_under(version, *row)?;
        total = total.saturating_add(record_length(r)).min(TOO_LONG);
    }
    Some(total)
}
