// A record of six lines.
ghost use Rattle.std.specs.Prelude.{◌≡◌};
ghost use Rattle.trace.specs.Record.{record_at, record_under};

use crate::records::{Records, op_at};
use trace::{Record, Version};

// The record at `at` under some header that is known, or the first of its six lines that breaks a rule.
#[tactic(auto, unfolding(trace::specs::Record::record_at))]
pub fn record_at(s: &[u8], at: usize) -> Result<(Record, usize), usize>
    ensures { result ≡ record_at s.now at }
{
    items::item_at::<Records>(s, at)
}

// The record at `at` under this header. An op that the header doesn't allow breaks its line.
pub fn record_under(version: Version, s: &[u8], at: usize) -> Result<(Record, usize), usize>
    ensures { result ≡ record_under version s.now at }
{
    let Some((op, past)) = op_at(s, at) else {
        return Err(1);
    };
    if trace::allows(version, op) {
        return items::item_after::<Records>(s, past, op);
    }
    Err(1)
}
