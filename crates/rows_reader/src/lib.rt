// The records of a text as rows in a lent run.
#![tactic(auto)]

ghost use Rattle.std.specs.Prelude.{◌≤◌, ◌≡◌, length};
ghost use Rattle.trace.specs.Trace.{first_record, records_from, Boundary};
ghost use Rattle.rows_reader.specs.Reading.{rows_of, in_front, read_of, rows_left};

use kinds::Refusal;
use trace::Version;

// A row for each record of a text that was read, where the run has room for them.
fn fill_rows(s: &[u8], rows: &mut [[u64; 6]])
    requires boundary { Boundary s.now first_record }
    requires first_record_in_bounds { length (records_from s.now first_record) ≤ length rows.old }
    ensures { rows.new ≡ in_front (rows_of (records_from s.now first_record)) rows.old }
{
    let mut at = trace::first_record();
    // Past the last record none is read.
    for row in rows.iter_mut() {
        let Ok((r, past)) = trace_lines::record_at(s, at) else {
            return;
        };
        *row = record_rows::row_of(r);
        at = past;
    }
}

// The rows of a text, at the run's start. Refusal 9, then 12; neither writes a row.
pub fn read_rows(s: &[u8], rows: &mut [[u64; 6]]) -> Result<(Version, usize), Refusal>
    ensures value { result ≡ read_of s.now (length rows.old) }
    ensures rows_after { rows.new ≡ rows_left s.now rows.old }
{
    let (version, n) = trace_lines::read_trace(s).map_err(|line| Refusal::BadTrace(line as u64))?;
    if rows.len() < n {
        return Err(Refusal::NoRoom);
    }
    fill_rows(s, rows);
    Ok((version, n))
}
