// A whole trace: its header, and record after record to its last byte.
ghost use Rattle.std.specs.Prelude.{◌≡◌};
ghost use Rattle.trace.specs.Trace.{trace_grammar, reading};
ghost use Rattle.trace.proofs.Shape.{trace_grammar_lem};

use crate::lines::record_under;
use crate::versions::header_at;
use items::Format;
use trace::{Op, Record, Version};

struct Trace;

#[tactic(auto, unfolding(trace::specs::Version::header_at, trace::specs::Record::record_under))]
impl Format for Trace {
    type Head = Version;

    type Kind = Op;

    type Item = Record;

    ghost grammar = { trace_grammar };

    ghost laws = { trace_grammar_lem };

    fn head_at(s: &[u8]) -> Option<(Version, usize)> {
        header_at(s)
    }

    fn item_under(version: Version, s: &[u8], at: usize) -> Result<(Record, usize), usize> {
        record_under(version, s, at)
    }
}

// The header and the number of the records of the text s, or the first line that breaks a rule.
#[tactic(auto, unfolding(trace::specs::Trace::reading))]
pub fn read_trace(s: &[u8]) -> Result<(Version, usize), usize>
    ensures { result ≡ reading s.now }
{
    items::read_text::<Trace>(s)
}
