// The call that a record names.
ghost use Rattle.std.specs.Prelude.{◌≡◌};
ghost use Rattle.model.specs.Tables.{lent_by};
ghost use Rattle.step.specs.Named.{call_of};
ghost use Rattle.step.specs.Step.{ran, ran_left};

use crate::Ran;
use crate::listing::run_listing;
use crate::put::put_plain;
use kinds::{PinNo, SLOTS, SlotNo, Stamp, Txid};
use table::Columns;
use trace::{Op, Record, Version};

// Runs a record of a trace with this header on the table that lent these columns and counters. A snapshot has a place for
// each slot of a table: columns with more slots than that are no table's, and nothing is run on them.
pub fn run_record(
    version: Version,
    columns: Columns<'_>,
    r: Record,
    buf: &mut [u8],
    at: usize,
) -> Ran
    ensures result_value { result ≡ ran version SLOTS (lent_by columns.entry) (call_of r) buf.old at }
    ensures buf_after { buf.new ≡ ran_left version SLOTS (lent_by columns.entry) (call_of r) buf.old at }
{
    let Columns {
        txids,
        pins,
        counters: was,
        ..
    } = columns;
    if SLOTS < txids.len() {
        return Ran::nothing(was);
    }
    let slot = SlotNo(r.slot);
    let id = Txid(r.id);
    let number = Stamp(r.stamp);
    // Each arm hands on other fields of the record.
    let decided = match r.op {
        Op::Begin => table::decide_begin(txids, was, number),
        Op::End => table::decide_end(txids, was, slot, id),
        Op::Snap => {
            let verdict = table::observation_test(was.clock, r.clock, r.sample);
            let decide = || table::decide_snap(txids, was, r.clock, r.sample);
            return run_listing(version, was, verdict, decide, buf, at);
        }
        Op::Own => {
            let verdict = table::own_test(txids, was, slot, id, r.clock, r.sample);
            let decide = || table::decide_own(txids, was, slot, id, r.clock, r.sample);
            return run_listing(version, was, verdict, decide, buf, at);
        }
        Op::Oldest => table::decide_oldest(columns, r.clock, r.sample),
        Op::Vacuum => table::decide_vacuum(columns, r.clock, r.sample),
        Op::Stamp => table::decide_stamp(was, number),
        Op::Finish => table::decide_finish(txids, was, slot, id, number),
        Op::Pin => {
            let verdict = table::observation_test(was.clock, r.clock, r.sample);
            let decide = || table::decide_pin(txids, pins, was, r.clock, r.sample);
            return run_listing(version, was, verdict, decide, buf, at);
        }
        Op::Unpin => table::decide_unpin(pins, was, PinNo(r.slot)),
    };
    put_plain(version, decided, buf, at)
}
