// The pinned snapshot and the release on a table in the host's memory (SPEC 20), for a host in Rust or C. Each answers its refusal's
// number, or 0, and writes the other numbers of its answer into `out`. 18 is answered for a table of another length and 12 where a
// run is too short; then nothing is written. A refused snapshot leaves `ids`.
#![tactic(auto)]

mod calls;

ghost use Rattle.std.specs.Prelude.{◌≡◌};
ghost use Rattle.kinds.specs.Kinds.{pin_no};
ghost use Rattle.model.specs.Calls.{pin as pinned, unpin};
ghost use Rattle.place.specs.Calls.{number_of, table_left, out_left, list_number, list_table, list_out, list_ids};

use calls::{Pin, Release};
use kinds::{PinNo, SLOTS};

// A snapshot that the line respects until its pin is released; `out` has the pin, and the ids in flight stand in the first places of
// `ids`.
#[unsafe(no_mangle)]
pub extern "C" fn sockhurdle_pin(
    table: &mut [u64],
    clock: u64,
    sample: u64,
    out: &mut [u64],
    ids: &mut [u64],
) -> u64
    ensures result_value { result ≡ list_number SLOTS table.old out.old ids.old (pinned clock sample) }
    ensures table_after { table.new ≡ list_table SLOTS table.old out.old ids.old (pinned clock sample) }
    ensures out_after { out.new ≡ list_out SLOTS table.old out.old ids.old (pinned clock sample) }
    ensures ids_after { ids.new ≡ list_ids SLOTS table.old out.old ids.old (pinned clock sample) }
{
    place_answers::show(table, out, ids, Pin { clock, sample })
}

// Releases a pin: it is free again, and nothing else moves.
#[unsafe(no_mangle)]
pub extern "C" fn sockhurdle_unpin(table: &mut [u64], pin: u16, out: &mut [u64]) -> u64
    ensures result_value { result ≡ number_of SLOTS table.old out.old (unpin (pin_no pin)) }
    ensures table_after { table.new ≡ table_left SLOTS table.old out.old (unpin (pin_no pin)) }
    ensures out_after { out.new ≡ out_left SLOTS table.old out.old (unpin (pin_no pin)) }
{
    place::run(table, out, Release(PinNo(pin)))
}
