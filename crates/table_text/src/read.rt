// Reading the text of a table, slot after slot, then pin after pin.
ghost use Rattle.std.specs.Prelude.{◌≡◌};
ghost use Rattle.std.specs.Option.{ok_or};
ghost use Rattle.text.specs.Line.{field_at};
ghost use Rattle.text.specs.FiveLines.{most};
ghost use Rattle.table_text.specs.TableText.{table_of};

use kinds::{PINS, SLOTS};
use model::{Counters, Table};

// The number of the first line after the slots, and after the pins.
const AFTER_SLOTS: usize = 2 * SLOTS + 2;

const AFTER_PINS: usize = AFTER_SLOTS + PINS;

// The number in the line of `key` at `at`, and the place past it; or `line`, where that line breaks its rule.
fn number_at(s: &[u8], at: usize, key: &[u8], line: usize) -> Result<(u64, usize), usize>
    ensures { result ≡ ok_or (field_at s.now at key.now most) line }
{
    text::field_at(s, at, key, u64::MAX).ok_or(line)
}

// The table of a text, or the first line that breaks a rule, from 1.
pub fn read_table(s: &[u8]) -> Result<Table, usize>
    ensures { result ≡ table_of SLOTS s.now }
{
    let mut at = text::past_bytes(s, 0, b"table=proc-1\n").ok_or(1usize)?;
    let mut txids = kinds::zeros();
    let mut snapshot_xmins = kinds::zeros();
    for i in 0..SLOTS {
        let (txid, past) = number_at(s, at, b"txid=", 2 * i + 2)?;
        let (xmin, next) = number_at(s, past, b"xmin=", 2 * i + 3)?;
        txids[i] = txid;
        snapshot_xmins[i] = xmin;
        at = next;
    }
    let mut pins = kinds::free_pins();
    for k in 0..PINS {
        let (xmin, next) = number_at(s, at, b"pin=", AFTER_SLOTS + k)?;
        pins[k] = xmin;
        at = next;
    }
    let (clock, at) = number_at(s, at, b"clock=", AFTER_PINS)?;
    let (sampled_clock, at) = number_at(s, at, b"sample=", AFTER_PINS + 1)?;
    let (vacuum_line, end) = number_at(s, at, b"line=", AFTER_PINS + 2)?;
    if end != s.len() {
        return Err(AFTER_PINS + 3);
    }
    Ok(Table {
        txids,
        snapshot_xmins,
        pins,
        counters: Counters {
            clock,
            sampled_clock,
            vacuum_line,
        },
    })
}
