// The five lines of numbers under the line that names an item: slot, id, a fourth, clock and sample.
#![tactic(auto)]

ghost use Rattle.std.specs.Prelude.{◌≡◌};
ghost use Rattle.text.specs.Line.{field_at};
ghost use Rattle.text.specs.FiveLines.{limit, fields_at};

use text::{Reads, Values};

const MOST_SLOT: u64 = 65535;

// The largest number of a field: 0 where it isn't read.
#[tactic(auto, unfolding(text::specs::FiveLines::limit))]
fn limit_of(reads: bool, most: u64) -> u64
    ensures { result ≡ limit reads most }
{
    if reads { most } else { 0 }
}

// The line of `key` and a number, for a field that is read or isn't.
fn field_if(s: &[u8], at: usize, key: &[u8], reads: bool, most: u64) -> Option<(u64, usize)>
    ensures { result ≡ field_at s.now at key.now (limit reads most) }
{
    text::field_at(s, at, key, limit_of(reads, most))
}

// The numbers of the five lines at `at`: lines 2 to 6 of an item, of which line 4 has the key `fourth`.
#[tactic(auto, unfolding(text::specs::FiveLines::fields_at, text::specs::FiveLines::field_rules, text::specs::Line::lines_at))]
pub fn fields_at(s: &[u8], at: usize, fourth: &[u8], reads: Reads) -> Result<(Values, usize), usize>
    ensures { result ≡ fields_at s.now at fourth.now reads }
{
    let (slot, a) = field_if(s, at, b"slot=", reads.slot, MOST_SLOT).ok_or(2usize)?;
    let (id, b) = field_if(s, a, b"id=", reads.id, u64::MAX).ok_or(3usize)?;
    let (number, c) = field_if(s, b, fourth, reads.fourth, u64::MAX).ok_or(4usize)?;
    let (clock, d) = field_if(s, c, b"clock=", reads.clock, u64::MAX).ok_or(5usize)?;
    let (sample, past) = field_if(s, d, b"sample=", reads.clock, u64::MAX).ok_or(6usize)?;
    let values = Values {
        slot: slot as u16,
        id,
        fourth: number,
        clock,
        sample,
    };
    Ok((values, past))
}
