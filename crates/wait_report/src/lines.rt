// The five lines of a verdict, written where the caller has seen that they have room.
ghost use Rattle.std.specs.Prelude.{◌+◌, ◌≤◌, length};
ghost use Rattle.text.specs.Placed.{Placed};
ghost use Rattle.wait_report.specs.Report.{verdict_lines};

use kinds::Told;
use text_writer::line;

pub fn verdict_lines(buf: &mut [u8], told: Told) -> usize
    requires { 0 + length (verdict_lines told) ≤ length buf.old }
    ensures { Placed buf.old 0 (verdict_lines told) buf.new result }
{
    // Not output's four lines and one more: those stand under a bound, these take exactly what they say.
    let a = line(buf, 0, b"answer=", told.number);
    let b = line(buf, a, b"slot=", told.slot);
    let c = line(buf, b, b"id=", told.id);
    let d = line(buf, c, b"seen=", told.seen);
    line(buf, d, b"at=", told.at)
}
