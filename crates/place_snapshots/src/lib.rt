// The plain snapshot and the transaction's on a table in the host's memory (SPEC 20), for a host in Rust or C. Each answers its
// refusal's number, or 0, writes the other numbers of its answer into `out` and the ids in flight into the first places of `ids`.
// 18 is answered for a table of another length and 12 where `out` or `ids` is too short; then nothing is written. A refused call
// leaves `ids`.
#![tactic(auto)]

mod calls;

ghost use Rattle.std.specs.Prelude.{◌≡◌};
ghost use Rattle.kinds.specs.Kinds.{slot as slotNo, txid};
ghost use Rattle.model.specs.Calls.{snap, own};
ghost use Rattle.place.specs.Calls.{list_number, list_table, list_out, list_ids};

use calls::{Own, Snap};
use kinds::{SLOTS, SlotNo, Txid};

// A plain snapshot, for a reader that isn't registered: the line doesn't respect it.
#[unsafe(no_mangle)]
pub extern "C" fn sockhurdle_snap(
    table: &mut [u64],
    clock: u64,
    sample: u64,
    out: &mut [u64],
    ids: &mut [u64],
) -> u64
    ensures result_value { result ≡ list_number SLOTS table.old out.old ids.old (snap clock sample) }
    ensures table_after { table.new ≡ list_table SLOTS table.old out.old ids.old (snap clock sample) }
    ensures out_after { out.new ≡ list_out SLOTS table.old out.old ids.old (snap clock sample) }
    ensures ids_after { ids.new ≡ list_ids SLOTS table.old out.old ids.old (snap clock sample) }
{
    place_answers::show(table, out, ids, Snap { clock, sample })
}

// A transaction's snapshot; its slot retains the xmin until the transaction's next one, or its end.
#[unsafe(no_mangle)]
pub extern "C" fn sockhurdle_own(
    table: &mut [u64],
    slot: u16,
    id: u64,
    clock: u64,
    sample: u64,
    out: &mut [u64],
    ids: &mut [u64],
) -> u64
    ensures result_value { result ≡ list_number SLOTS table.old out.old ids.old (own (slotNo slot) (txid id) clock sample) }
    ensures table_after { table.new ≡ list_table SLOTS table.old out.old ids.old (own (slotNo slot) (txid id) clock sample) }
    ensures out_after { out.new ≡ list_out SLOTS table.old out.old ids.old (own (slotNo slot) (txid id) clock sample) }
    ensures ids_after { ids.new ≡ list_ids SLOTS table.old out.old ids.old (own (slotNo slot) (txid id) clock sample) }
{
    let own = Own {
        slot: SlotNo(slot),
        id: Txid(id),
        clock,
        sample,
    };
    place_answers::show(table, out, ids, own)
}
