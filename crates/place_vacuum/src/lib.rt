// Oldest and vacuum on a table in the host's memory (SPEC 20), for a host in Rust or C. Each answers its refusal's number, or 0, and
// writes the other numbers of its answer into `out`, the holder too. 18 is answered for a table of another length and 12 for an
// `out` that is too short; then nothing is written.
#![tactic(auto)]

mod calls;

ghost use Rattle.std.specs.Prelude.{◌≡◌};
ghost use Rattle.model.specs.Calls.{oldest, vacuum};
ghost use Rattle.place.specs.Calls.{number_of, table_left, out_left};

use calls::{Oldest, Vacuum};
use kinds::SLOTS;

// The oldest retained xmin, which `out` has as xmin, and who holds it.
#[unsafe(no_mangle)]
pub extern "C" fn sockhurdle_oldest(
    table: &mut [u64],
    clock: u64,
    sample: u64,
    out: &mut [u64],
) -> u64
    ensures result_value { result ≡ number_of SLOTS table.old out.old (oldest clock sample) }
    ensures table_after { table.new ≡ table_left SLOTS table.old out.old (oldest clock sample) }
    ensures out_after { out.new ≡ out_left SLOTS table.old out.old (oldest clock sample) }
{
    place::run(table, out, Oldest { clock, sample })
}

// Raises the line as far as no reader needs what is below it; `out` has the line, and who holds it back.
#[unsafe(no_mangle)]
pub extern "C" fn sockhurdle_vacuum(
    table: &mut [u64],
    clock: u64,
    sample: u64,
    out: &mut [u64],
) -> u64
    ensures result_value { result ≡ number_of SLOTS table.old out.old (vacuum clock sample) }
    ensures table_after { table.new ≡ table_left SLOTS table.old out.old (vacuum clock sample) }
    ensures out_after { out.new ≡ out_left SLOTS table.old out.old (vacuum clock sample) }
{
    place::run(table, out, Vacuum { clock, sample })
}
