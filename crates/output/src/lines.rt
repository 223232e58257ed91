// The text of an answer, written at a place of a lent buffer.
ghost use Rattle.std.specs.Prelude.{◌≡◌, ◌++◌, ◌+◌, ◌*◌, ◌≤◌, true, length, take};
ghost use Rattle.text.specs.Keys.{in_key};
ghost use Rattle.text.specs.Line.{line_text};
ghost use Rattle.output.specs.Output.{told_lines, rest_lines, holder_line, in_lines, answer_text, holder_room, need, fits, put_text, left_text};
ghost use Rattle.output.specs.Wrote.{Wrote};

use kinds::{SLOTS, Told};
use model::Numbers;
use trace::Version;

// The line of `key` and n, where the caller has seen that there is room: a number takes 20 digits at most.
fn line(buf: &mut [u8], at: usize, key: &[u8], n: u64) -> usize
    requires { at + (length key.now + 21) ≤ length buf.old }
    ensures { Wrote buf.old at (line_text key.now n) buf.new result (length key.now + 21) }
{
    // A name of its own: it says the bound that the lines below add up, where text_writer's says the digits.
    text_writer::line(buf, at, key, n)
}

// The first four lines: what the answer tells.
fn told_lines(buf: &mut [u8], at: usize, told: Told) -> usize
    requires { at + 112 ≤ length buf.old }
    ensures { Wrote buf.old at (told_lines told) buf.new result 112 }
{
    let a = line(buf, at, b"answer=", told.number);
    let b = line(buf, a, b"slot=", told.slot);
    let c = line(buf, b, b"id=", told.id);
    line(buf, c, b"seen=", told.seen)
}

// The four after them.
fn rest_lines(buf: &mut [u8], at: usize, n: Numbers) -> usize
    requires { at + 112 ≤ length buf.old }
    ensures { Wrote buf.old at (rest_lines n) buf.new result 112 }
{
    let a = line(buf, at, b"xmin=", n.xmin);
    let b = line(buf, a, b"xmax=", n.xmax);
    let c = line(buf, b, b"vacuum=", n.vacuum_line);
    line(buf, c, b"count=", n.count as u64)
}

// The ninth, under a header that has it.
fn holder_line(buf: &mut [u8], at: usize, version: Version, holder: u64) -> usize
    requires { at + holder_room version ≤ length buf.old }
    ensures { Wrote buf.old at (holder_line version holder) buf.new result (holder_room version) }
{
    match version {
        Version::Proc1 => at,
        Version::Proc2 | Version::Proc3 => line(buf, at, b"holder=", holder),
    }
}

// A line for each of the first `count` ids.
fn in_lines(buf: &mut [u8], at: usize, ids: &[u64], count: usize) -> usize
    requires { at + 24 * count ≤ length buf.old }
    ensures { Wrote buf.old at (in_lines (take count ids.now)) buf.new result (24 * count) }
{
    let mut past = at;
    for &id in ids.iter().take(count) {
        past = line(buf, past, b"in=", id);
    }
    past
}

// The bytes that the ninth line is given.
fn holder_room(version: Version) -> usize
    ensures { result ≡ holder_room version }
{
    match version {
        Version::Proc1 => 0,
        Version::Proc2 | Version::Proc3 => 28,
    }
}

// Whether a record that lists `count` ids has room from `at` on.
fn has_room(version: Version, size: usize, at: usize, count: usize) -> bool
    ensures value { result ≡ fits version SLOTS size at count }
    ensures room { result ≡ true → at + need version count ≤ size }
{
    count <= SLOTS && 224 + holder_room(version) + 24 * count <= size.saturating_sub(at)
}

// The eight lines, or nine, and a line for each of the first `count` ids, where they have room.
pub fn put_answer(
    version: Version,
    buf: &mut [u8],
    at: usize,
    n: Numbers,
    ids: &[u64],
) -> Option<usize>
    ensures result_value { result ≡ put_text version SLOTS buf.old at n.count (answer_text version n (take n.count ids.now)) }
    ensures buf_after { buf.new
        ≡ left_text version SLOTS buf.old at n.count (answer_text version n (take n.count ids.now)) }
{
    if !has_room(version, buf.len(), at, n.count) {
        return None;
    }
    let four = told_lines(buf, at, n.told);
    let eight = rest_lines(buf, four, n);
    let nine = holder_line(buf, eight, version, n.holder);
    Some(in_lines(buf, nine, ids, n.count))
}
