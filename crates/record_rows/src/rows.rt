// A record as a row, and the record that a row is.
ghost use Rattle.std.specs.Prelude.{◌≡◌};
ghost use Rattle.record_rows.specs.Rows.{row_of, allowed_by, record_row};

use crate::NoRecord;
use text::Reads;
use trace::Record;

// The row of a record.
pub fn row_of(r: Record) -> [u64; 6]
    ensures { result ≡ row_of r }
{
    let op = op_numbers::op_number(r.op);
    let slot = u64::from(r.slot);
    [op, slot, r.id, r.stamp, r.clock, r.sample]
}

// Whether 0 stands in each field that isn't read.
#[tactic(auto, unfolding(crate::specs::Rows::allowed_by, crate::specs::Rows::may_be))]
fn unread_are_zero(reads: Reads, r: Record) -> bool
    ensures { result ≡ allowed_by reads r.slot r.id r.stamp r.clock r.sample }
{
    (reads.slot || r.slot == 0)
        && (reads.id || r.id == 0)
        && (reads.fourth || r.stamp == 0)
        && (reads.clock || r.clock == 0)
        && (reads.clock || r.sample == 0)
}

// The record that a row is, or the first reason why it is none.
#[tactic(auto, unfolding(crate::specs::Rows::record_row, crate::specs::Rows::of_op))]
pub fn record_of(row: [u64; 6]) -> Result<Record, NoRecord>
    ensures { result ≡ record_row row }
{
    let [number, slot, id, stamp, clock, sample] = row;
    let op = op_numbers::op_of(number).ok_or(NoRecord::UnknownOp)?;
    let slot = u16::try_from(slot).map_err(|_| NoRecord::SlotTooLarge)?;
    let record = Record {
        op,
        slot,
        id,
        stamp,
        clock,
        sample,
    };
    if !unread_are_zero(trace::reads_of(op), record) {
        return Err(NoRecord::UnreadNumber);
    }
    Ok(record)
}
