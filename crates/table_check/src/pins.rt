// The part of the check that reads the pins.
ghost use Rattle.std.specs.Prelude.{◌≡◌};
ghost use Rattle.model.specs.Check.{pin_passes, pin_column_passes};

use kinds::PINS;
use model::Counters;

// A taken pin is from the line to the clock.
fn pin_passes(xmin: u64, counters: Counters) -> bool
    ensures { result ≡ pin_passes counters.clock counters.vacuum_line xmin }
{
    xmin == 0 || (counters.vacuum_line <= xmin && xmin <= counters.clock)
}

// There are as many pins as a table has, and every one passes.
pub fn pins_pass(pins: &[u64], counters: Counters) -> bool
    ensures { result ≡ pin_column_passes counters.clock counters.vacuum_line pins.now }
{
    pins.len() == PINS && pins.iter().all(|&xmin| pin_passes(xmin, counters))
}
