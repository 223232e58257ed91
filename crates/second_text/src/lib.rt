// What the second engine answers to a record's call, put as text, against the text that was printed for it.
#![tactic(auto)]

ghost use Rattle.std.specs.Prelude.{◌≡◌};
ghost use Rattle.same_bytes.specs.Same.{equal_bytes};
ghost use Rattle.second_text.specs.Second.{second_text};

use kinds::SLOTS;
use trace::Version;

// The most bytes that a record prints: nine lines, and one for each slot.
pub const MOST: usize = 252 + 24 * SLOTS;

// Whether the text is that of the second engine's answer to the call of this row, after those of the list.
pub fn record_agrees(version: Version, calls: &[[u64; 6]], row: [u64; 6], printed: &[u8]) -> bool
    ensures { result ≡ equal_bytes printed.now (second_text version SLOTS calls.now row) }
{
    let said = ledger::answer_to(calls, row);
    let mut buf = [0u8; MOST];
    let Some(end) = output::put_answer(version, &mut buf, 0, said.numbers, &said.ids) else {
        return false;
    };
    same_bytes::same_bytes(printed, &buf[..end])
}
