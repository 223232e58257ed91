// A trace as rows, and the rows as a trace.
ghost use Rattle.std.specs.Prelude.{◌≡◌, length};
ghost use Rattle.rewrite.specs.Again.{again_of, again_left};

use kinds::Refusal;

// No trace has more records: the least has 44 bytes.
const MOST: usize = 1489;

// The text of a trace at the start of `out`, byte for byte; or refusal 9 with its line.
pub fn rewrite(s: &[u8], out: &mut [u8]) -> Result<usize, Refusal>
    ensures value { result ≡ again_of s.now (length out.old) }
    ensures out_after { out.new ≡ again_left s.now out.old }
{
    let mut rows = [[0u64; 6]; MOST];
    let (version, n) = trace_writer::read_rows(s, &mut rows)?;
    trace_writer::write_trace(version, &rows[..n], out)
}
