// The tests of a reserved number and of an observation against the clock, each with its order of refusals.
#![tactic(auto)]

ghost use Rattle.std.specs.Prelude.{◌≡◌};
ghost use Rattle.model.specs.Tests.{reservation_test, observation_test};

use kinds::{Refusal, Stamp};

// How far above the clock a reserved number may lie.
const FARTHEST: u64 = 4294967296;

// Whether the clock and the reserved number allow a reservation. Refusals 5, 6, 13, in this order.
pub fn reservation_test(clock: u64, number: Stamp) -> Result<(), Refusal>
    ensures { result ≡ reservation_test clock number }
{
    if clock == u64::MAX {
        return Err(Refusal::ClockExhausted);
    }
    let number = number.0;
    if number == 0 || number < clock || number == u64::MAX {
        return Err(Refusal::BadReservation);
    }
    // The number is from the clock on here, so that nothing wraps.
    if FARTHEST < number - clock {
        return Err(Refusal::WildJump);
    }
    Ok(())
}

// Whether the given clock and its sample can be observed. Refusals 7, 8, in this order.
pub fn observation_test(former: u64, clock: u64, sample: u64) -> Result<(), Refusal>
    ensures { result ≡ observation_test former clock sample }
{
    if clock < former {
        return Err(Refusal::BadClock);
    }
    if sample == 0 || clock < sample {
        return Err(Refusal::BadSample);
    }
    Ok(())
}
