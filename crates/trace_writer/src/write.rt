// A run of rows as a text in a lent buffer.
ghost use Rattle.std.specs.Prelude.{◌≤◌, ◌≡◌, length};
ghost use Rattle.text.specs.Write.{spliced};
ghost use Rattle.trace.specs.Trace.{trace_text};
ghost use Rattle.rows_measure.specs.Measuring.{Records, Are, records_of, listed};
ghost use Rattle.trace_writer.specs.Writing.{wrote_of, left_of};

use crate::lines;
use kinds::Refusal;
use trace::Version;

// The header and record after record, where every row is one and all of them have room.
fn write_text(version: Version, rows: &[[u64; 6]], buf: &mut [u8])
    requires rows_value { records_of version rows.now ≡ Are (listed (records_of version rows.now)) }
    requires rows_in_bounds { length (trace_text version (listed (records_of version rows.now))) ≤ length buf.old }
    ensures { buf.new ≡ spliced buf.old 0 (trace_text version (listed (records_of version rows.now))) }
{
    let mut at = lines::header(version, buf);
    for row in rows {
        let Some(r) = rows_measure::row_under(version, *row) else {
            return;
        };
        at = lines::record(buf, at, r);
    }
}

// The text of a run of rows, at the buffer's start. Refusal 20, then 12; neither writes a byte.
pub fn write_trace(version: Version, rows: &[[u64; 6]], buf: &mut [u8]) -> Result<usize, Refusal>
    ensures value { result ≡ wrote_of version rows.now (length buf.old) }
    ensures buf_after { buf.new ≡ left_of version rows.now buf.old }
{
    let n = rows_measure::measure(version, rows).ok_or(Refusal::BadRecord)?;
    if trace::LONGEST.min(buf.len()) < n {
        return Err(Refusal::NoRoom);
    }
    write_text(version, rows, buf);
    Ok(n)
}
