// The part of the check that reads no slot.
ghost use Rattle.std.specs.Prelude.{◌≡◌};
ghost use Rattle.model.specs.Check.{numbers_pass};

use kinds::SLOTS;
use model::Counters;

// There are as many slots as a table has; 1 ≤ sample ≤ clock; 1 ≤ line ≤ clock.
pub fn numbers_pass(size: usize, counters: Counters) -> bool
    ensures { result
        ≡ numbers_pass SLOTS size counters.clock counters.sampled_clock counters.vacuum_line }
{
    size == SLOTS
        && 1 <= counters.sampled_clock
        && counters.sampled_clock <= counters.clock
        && 1 <= counters.vacuum_line
        && counters.vacuum_line <= counters.clock
}
