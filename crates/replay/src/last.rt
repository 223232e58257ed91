// What a run ends with: the number of its records, and under proc-2 and proc-3 what the second engine says of them.
ghost use Rattle.std.specs.Prelude.{◌+◌, ◌≤◌, ◌≡◌, length};
ghost use Rattle.text.specs.Keys.{records_key};
ghost use Rattle.text.specs.Line.{line_text};
ghost use Rattle.text.specs.Write.{spliced};
ghost use Rattle.trace.specs.Reading.{Whole};
ghost use Rattle.trace.specs.Trace.{reading};
ghost use Rattle.output.specs.Wrote.{Wrote};
ghost use Rattle.replay_text.specs.Replay.{agree_key, last_text};

use trace::Version;

// The number of records at the buffer's start: 29 bytes hold the line, whatever the count is. Answers its length.
fn last_line(buf: &mut [u8], count: usize) -> usize
    requires { 29 ≤ length buf.old }
    ensures value { result ≡ length (line_text records_key count) }
    ensures buf_after { buf.new ≡ spliced buf.old 0 (line_text records_key count) }
{
    text_writer::line(buf, 0, b"records=", count as u64)
}

// 1 where the second engine agrees at every record of the trace, 0 where it differs at any. It is proved to agree, and asked all
// the same.
fn agreed(s: &[u8], version: Version, count: usize) -> u64
    requires { reading s.now ≡ Whole version count }
    ensures { result ≡ 1 }
{
    u64::from(agree::all_agree(s))
}

// The second engine's line after `at` bytes.
fn agree_line(buf: &mut [u8], at: usize, s: &[u8], version: Version, count: usize) -> usize
    requires at_in_bounds { at + 27 ≤ length buf.old }
    requires s_value { reading s.now ≡ Whole version count }
    ensures { Wrote buf.old at (line_text agree_key 1) buf.new result 27 }
{
    text_writer::line(buf, at, b"agree=", agreed(s, version, count))
}

// Both lines, put into the buffer, or the one that proc-1 has.
pub fn last_lines<'a>(buf: &'a mut [u8], s: &[u8], version: Version, count: usize) -> &'a [u8]
    requires in_bounds { 56 ≤ length buf.old }
    requires s_value { reading s.now ≡ Whole version count }
    ensures { result.now ≡ last_text version count }
{
    let first = last_line(buf, count);
    let end = match version {
        Version::Proc1 => first,
        Version::Proc2 | Version::Proc3 => agree_line(buf, first, s, version, count),
    };
    &buf[..end]
}
