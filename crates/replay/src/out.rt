// A whole replay to a file descriptor, through one buffer that is handed on in large pieces.
ghost use Rattle.std.specs.Prelude.{◌≤◌, ◌≡◌, length};
ghost use Rattle.text.specs.Write.{spliced};
ghost use Rattle.trace.specs.Reading.{Whole, Broken};
ghost use Rattle.trace.specs.Trace.{reading};
ghost use Rattle.replay_text.specs.Replay.{broken_text};
ghost use Rattle.replay.specs.Sent.{SentFits};

use crate::border::{Handed, Stopped, hand_on, nothing};
use crate::into::put_broken;
use crate::last::last_lines;
use kinds::SLOTS;
use replay_part::run_part;
use trace::Version;

// What went: all of a trace's answers; or, of a text that is no trace, all of refusal 9.
#[derive(Clone, Copy)]
pub enum Gone {
    All(Handed),
    Refused(Handed),
}

// The two lines of refusal 9, put into the buffer: 33 bytes hold them, whatever the line is.
fn broken_lines(buf: &mut [u8], line: usize) -> &[u8]
    requires { 33 ≤ length buf.old }
    ensures { result.now ≡ broken_text line }
{
    let size = put_broken(buf, line).unwrap();
    &buf[..size]
}

// Refusal 9 of a text that is no trace: one piece.
fn broken_to(s: &[u8], line: usize, to: i32) -> Result<Gone, Stopped>
    requires { reading s.now ≡ Broken line }
    ensures { SentFits SLOTS s.now to result }
{
    let mut buf = [0u8; 64];
    let all = hand_on(s, nothing(to), broken_lines(&mut buf, line))?;
    Ok(Gone::Refused(all))
}

// Runs the records of a trace that was read, a buffer's worth at a time, and says how many there are; under proc-2 and proc-3
// the second engine runs them too, and is held against the table. It stops at the first write that fails: the output is then a
// beginning of the right one, without the last lines.
fn run_to(s: &[u8], version: Version, count: usize, to: i32) -> Result<Gone, Stopped>
    requires { reading s.now ≡ Whole version count }
    ensures { SentFits SLOTS s.now to result }
{
    let mut buf = io::large_buffer();
    let mut table = table::fresh();
    let mut at = trace::first_record();
    let mut gone = nothing(to);
    // No `for`: the next part starts where this one stopped for want of room.
    while at != s.len() {
        let part = run_part(version, s, at, table, &mut buf);
        gone = hand_on(s, gone, &buf[..part.filled])?;
        at = part.at;
        table = part.table;
    }
    let all = hand_on(s, gone, last_lines(&mut buf, s, version, count))?;
    Ok(Gone::All(all))
}

// The text that a trace prints, to a file descriptor. The whole trace is read before any record is run.
pub fn replay_to(s: &[u8], to: i32) -> Result<Gone, Stopped>
    ensures { SentFits SLOTS s.now to result }
{
    match trace_lines::read_trace(s) {
        Ok((version, count)) => run_to(s, version, count, to),
        Err(line) => broken_to(s, line, to),
    }
}
