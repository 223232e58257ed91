// A whole replay into one lent buffer.
ghost use Rattle.replay.specs.Into.{IntoFits, BrokenFits, EndFits};

use kinds::{Refusal, SLOTS};
use replay_part::run_part;

// The two lines of refusal 9, at the buffer's start.
pub fn put_broken(buf: &mut [u8], line: usize) -> Result<usize, usize>
    ensures { BrokenFits line buf.old buf.new result }
{
    if buf.len() < 33 {
        return Err(0);
    }
    let told = kinds::tell(Refusal::BadTrace(line as u64));
    let at = text_writer::line(buf, 0, b"answer=", told.number);
    Ok(text_writer::line(buf, at, b"at=", told.at))
}

// The last line, after `filled` bytes.
pub fn put_records(buf: &mut [u8], filled: usize, count: usize) -> Result<usize, usize>
    ensures { EndFits count filled buf.old buf.new result }
{
    text_writer::put_line(buf, filled, b"records=", count as u64).ok_or(filled)
}

// The text that a trace prints, at the buffer's start. The whole trace is read before any record is run. Where there is none to
// run, no table is made: to make it and hand it on would take longer than all the rest.
pub fn replay_into(s: &[u8], out: &mut [u8]) -> Result<usize, usize>
    ensures { IntoFits SLOTS s.now out.old out.new result }
{
    let (version, count) = match trace_lines::read_trace(s) {
        Ok(whole) => whole,
        Err(line) => return put_broken(out, line),
    };
    let first = trace::first_record();
    if first == s.len() {
        return put_records(out, 0, count);
    }
    let part = run_part(version, s, first, table::fresh(), out);
    if part.at != s.len() {
        return Err(part.filled);
    }
    put_records(out, part.filled, count)
}
