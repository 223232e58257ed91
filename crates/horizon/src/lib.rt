// What oldest and vacuum find: the oldest retained xmin, of slots and pins, and who holds it. A pin is scanned as a slot that retains
// what it holds.
#![tactic(auto)]

ghost use Rattle.std.specs.Prelude.{◌≡◌};
ghost use Rattle.model.specs.Calls.{oldest_in};
ghost use Rattle.model.specs.Tables.{lent_by};
ghost use Rattle.model.specs.Tally.{holder_of, pin_holder_of};

use model::Columns;

// Pins are told as numbers from here on.
const FIRST_PIN: u64 = 2000;

// What is told where nobody holds what was found, less the first pin's number.
// (One number for slots, pins and nobody: so it is printed, and so C takes it.)
const NOBODY_PAST_PINS: u64 = 63535;

// The smallest of the sample, the snapshot_xmin of taken slots, and the taken pins.
pub fn oldest_of(columns: Columns<'_>, sample: u64) -> u64
    ensures { result ≡ oldest_in (lent_by columns.entry) sample }
{
    let low = taken_scans::oldest_retained(columns.txids, columns.snapshot_xmins, sample);
    taken_scans::oldest_retained(columns.pins, columns.pins, low)
}

// The lowest taken slot that retains xmin; where none does, 2,000 plus the lowest pin that holds it; 65,535 for nobody.
#[tactic(auto, using(model::proofs::Holding::holder_bound))]
pub fn holder_of(columns: Columns<'_>, xmin: u64) -> u64
    ensures { let t = lent_by columns.entry in
        result ≡ holder_of t.txids t.snapshot_xmins xmin (pin_holder_of t.pins xmin) }
{
    let pin = scans::lowest_holder(columns.pins, columns.pins, xmin, NOBODY_PAST_PINS);
    scans::lowest_holder(columns.txids, columns.snapshot_xmins, xmin, pin + FIRST_PIN)
}
