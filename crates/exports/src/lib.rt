// The replay and the check of a wait for a host. The crate exports_c hands these functions to hosts in C or Rust, as a static
// library; sockhurdle.h in this crate's folder declares them for C.
#![tactic(auto)]

mod waits;

ghost use Rattle.std.specs.Prelude.{◌≡◌, length};
ghost use Rattle.exports.specs.Status.{answer_of, left_of, ReadFits, StatusFits, RunFits};

use input::read_all;
use kinds::SLOTS;
use replay::Gone;
pub use waits::{sockhurdle_wait, sockhurdle_wait_owned};

// One byte more than a trace may have, to know that there is one.
const ROOM: usize = replay::LONGEST + 1;

// A whole replay into a lent buffer, without the second engine. Answers the length of the output; or 0 where it had no room,
// and the buffer then begins with as many of its records as had. An output is never empty.
pub fn sockhurdle_replay(input: &[u8], out: &mut [u8]) -> usize
    ensures result_value { result ≡ answer_of SLOTS input.now out.old }
    ensures out_after { out.new ≡ left_of SLOTS input.now out.old }
{
    // A number, and no `Option`: C takes it, here and below.
    replay::replay_into(input, out).unwrap_or(0)
}

// Reads an input to its end, or until the buffer is full. Answers the number of bytes, or 2^64 - 1 where a read failed:
// what came before it is then no input.
pub fn sockhurdle_read(from: i32, into: &mut [u8]) -> usize
    ensures { ReadFits (length into.old) result }
{
    read_all(from, into).unwrap_or(usize::MAX)
}

// A whole replay to a file descriptor, under proc-2 and proc-3 with the second engine's line. Answers 0 where it went; 3 where
// the text is no trace, and refusal 9 went; 1 where a write failed, and what went is a beginning of the output.
pub fn sockhurdle_replay_to(input: &[u8], to: i32) -> i32
    ensures { StatusFits input.now result }
{
    match replay::replay_to(input, to) {
        Ok(Gone::All(_)) => 0,
        Ok(Gone::Refused(_)) => 3,
        Err(_) => 1,
    }
}

// The program: reads a trace from one descriptor and replays it to another. Answers as sockhurdle_replay_to does; or 2
// where the input could not be read, and nothing was run or written.
pub fn sockhurdle_run(from: i32, to: i32) -> i32
    ensures { RunFits result }
{
    let mut buf = [0u8; ROOM];
    let Some(size) = read_all(from, &mut buf) else {
        return 2;
    };
    sockhurdle_replay_to(&buf[..size], to)
}
