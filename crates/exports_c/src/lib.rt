// The replay and the check of a wait for a host in C or Rust, linked as a static library: the functions of the crate exports
// under their names, each with its clauses. sockhurdle.h in that crate's folder declares them for C; a slice is a pointer and
// a length there.
#![tactic(auto)]

ghost use Rattle.std.specs.Prelude.{◌≡◌, length};
ghost use Rattle.text.specs.Write.{put_at, written};
ghost use Rattle.wait_rules.specs.Owner.{Nobody};
ghost use Rattle.wait_report.specs.Report.{report_of};
ghost use Rattle.exports.specs.Status.{answer_of, left_of, reported, holder, ReadFits, StatusFits, RunFits};

use kinds::SLOTS;

// A whole replay into a lent buffer.
#[unsafe(no_mangle)]
pub extern "C" fn sockhurdle_replay(input: &[u8], out: &mut [u8]) -> usize
    ensures result_value { result ≡ answer_of SLOTS input.now out.old }
    ensures out_after { out.new ≡ left_of SLOTS input.now out.old }
{
    exports::sockhurdle_replay(input, out)
}

// Reads an input to its end, or until the buffer is full.
#[unsafe(no_mangle)]
pub extern "C" fn sockhurdle_read(from: i32, into: &mut [u8]) -> usize
    ensures { ReadFits (length into.old) result }
{
    exports::sockhurdle_read(from, into)
}

// A whole replay to a file descriptor.
#[unsafe(no_mangle)]
pub extern "C" fn sockhurdle_replay_to(input: &[u8], to: i32) -> i32
    ensures { StatusFits input.now result }
{
    exports::sockhurdle_replay_to(input, to)
}

// The program: reads a trace from one descriptor and replays it to another.
#[unsafe(no_mangle)]
pub extern "C" fn sockhurdle_run(from: i32, to: i32) -> i32
    ensures { RunFits result }
{
    exports::sockhurdle_run(from, to)
}

// Checks what others did to a table while nobody's slot had to stay.
#[unsafe(no_mangle)]
pub extern "C" fn sockhurdle_wait(table: &[u8], wait: &[u8], out: &mut [u8]) -> usize
    ensures result_value { result ≡ reported (put_at out.old 0 (report_of SLOTS table.now Nobody wait.now)) }
    ensures out_after { out.new ≡ written out.old 0 (report_of SLOTS table.now Nobody wait.now) }
{
    exports::sockhurdle_wait(table, wait, out)
}

// .. while the slot of a registration had to stay.
#[unsafe(no_mangle)]
pub extern "C" fn sockhurdle_wait_owned(
    table: &[u8],
    slot: u16,
    id: u64,
    wait: &[u8],
    out: &mut [u8],
) -> usize
    ensures result_value { result ≡ reported (put_at out.old 0 (report_of SLOTS table.now (holder slot id) wait.now)) }
    ensures out_after { out.new ≡ written out.old 0 (report_of SLOTS table.now (holder slot id) wait.now) }
{
    exports::sockhurdle_wait_owned(table, slot, id, wait, out)
}
