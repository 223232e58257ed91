// The lines of a text, written at a place where the caller has seen that they have room.
ghost use Rattle.std.specs.Prelude.{◌+◌, ◌≤◌, length};
ghost use Rattle.text.specs.Placed.{Placed};
ghost use Rattle.trace.specs.Version.{header_of};
ghost use Rattle.trace.specs.Record.{record_text};

use rows_measure::op_and_slot_key;
use text_writer::line;
use trace::{Record, Version};

// The header is a key and a number too.
pub fn header(version: Version, buf: &mut [u8]) -> usize
    requires { length (header_of version) ≤ length buf.old }
    ensures { Placed buf.old 0 (header_of version) buf.new result }
{
    let number = match version {
        Version::Proc1 => 1,
        Version::Proc2 => 2,
        Version::Proc3 => 3,
    };
    line(buf, 0, b"trace=proc-", number)
}

// The six lines of a record.
pub fn record(buf: &mut [u8], at: usize, r: Record) -> usize
    requires { at + length (record_text r) ≤ length buf.old }
    ensures { Placed buf.old at (record_text r) buf.new result }
{
    let a = line(buf, at, op_and_slot_key(r.op), r.slot as u64);
    let b = line(buf, a, b"id=", r.id);
    let c = line(buf, b, b"stamp=", r.stamp);
    let d = line(buf, c, b"clock=", r.clock);
    line(buf, d, b"sample=", r.sample)
}
