// Begin, end, stamp and finish on a table in the host's memory (SPEC 20), for a host in Rust or C. Each answers its refusal's
// number, or 0, and writes the other numbers of its answer into `out`. 18 is answered for a table of another length and 12 for an
// `out` that is too short; then nothing is written.
#![tactic(auto)]

mod calls;

ghost use Rattle.std.specs.Prelude.{◌≡◌};
ghost use Rattle.kinds.specs.Kinds.{number as numbered, slot as slotNo, txid};
ghost use Rattle.model.specs.Calls.{begin, end, stamp, finish};
ghost use Rattle.place.specs.Calls.{number_of, table_left, out_left};

use calls::{Begin, End, Finish, Publish};
use kinds::{SLOTS, SlotNo, Stamp, Txid};

// Registers a transaction with a number reserved from the clock; `out` has its slot and its id.
#[unsafe(no_mangle)]
pub extern "C" fn sockhurdle_begin(table: &mut [u64], number: u64, out: &mut [u64]) -> u64
    ensures result_value { result ≡ number_of SLOTS table.old out.old (begin (numbered number)) }
    ensures table_after { table.new ≡ table_left SLOTS table.old out.old (begin (numbered number)) }
    ensures out_after { out.new ≡ out_left SLOTS table.old out.old (begin (numbered number)) }
{
    place::run(table, out, Begin(Stamp(number)))
}

// Ends the registration of `id` in its slot.
#[unsafe(no_mangle)]
pub extern "C" fn sockhurdle_end(table: &mut [u64], slot: u16, id: u64, out: &mut [u64]) -> u64
    ensures result_value { result ≡ number_of SLOTS table.old out.old (end (slotNo slot) (txid id)) }
    ensures table_after { table.new ≡ table_left SLOTS table.old out.old (end (slotNo slot) (txid id)) }
    ensures out_after { out.new ≡ out_left SLOTS table.old out.old (end (slotNo slot) (txid id)) }
{
    place::run(table, out, End(SlotNo(slot), Txid(id)))
}

// Takes a publication stamp; `out` has it as id.
#[unsafe(no_mangle)]
pub extern "C" fn sockhurdle_stamp(table: &mut [u64], number: u64, out: &mut [u64]) -> u64
    ensures result_value { result ≡ number_of SLOTS table.old out.old (stamp (numbered number)) }
    ensures table_after { table.new ≡ table_left SLOTS table.old out.old (stamp (numbered number)) }
    ensures out_after { out.new ≡ out_left SLOTS table.old out.old (stamp (numbered number)) }
{
    place::run(table, out, Publish(Stamp(number)))
}

// Ends a registration and takes a publication stamp, in one step; `out` has the stamp as id.
#[unsafe(no_mangle)]
pub extern "C" fn sockhurdle_finish(
    table: &mut [u64],
    slot: u16,
    id: u64,
    number: u64,
    out: &mut [u64],
) -> u64
    ensures result_value { result ≡ number_of SLOTS table.old out.old (finish (slotNo slot) (txid id) (numbered number)) }
    ensures table_after { table.new ≡ table_left SLOTS table.old out.old (finish (slotNo slot) (txid id) (numbered number)) }
    ensures out_after { out.new ≡ out_left SLOTS table.old out.old (finish (slotNo slot) (txid id) (numbered number)) }
{
    place::run(table, out, Finish(SlotNo(slot), Txid(id), Stamp(number)))
}
