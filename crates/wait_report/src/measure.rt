// The length of the five lines, before a byte of them is written.
ghost use Rattle.std.specs.Prelude.{◌≡◌, length};
ghost use Rattle.wait_report.specs.Report.{verdict_lines};

use kinds::Told;
use text_writer::digits_in;

// Five keys with their `=` and five newlines are 28 bytes.
#[tactic(auto, using(crate::proofs::Five::verdict_length))]
pub fn verdict_length(told: Told) -> usize
    ensures { result ≡ length (verdict_lines told) }
{
    28 + digits_in(told.number)
        + digits_in(told.slot)
        + digits_in(told.id)
        + digits_in(told.seen)
        + digits_in(told.at)
}
