// The tests behind the refusals, each in the order of SPEC 3. A refusal is told in numbers: the slot or the pin that a row names may be
// above what a `SlotNo` or a `PinNo` holds. The numbers stand here a second time, beside those that `kinds::tell` gives the table's
// printers: the second engine shares no code with the table's, so that a wrong number on one side shows. `number_at` and `FARTHEST`
// stand in the table's crates too, for the same reason.
#![tactic(auto, unfolding(kinds::specs::Refusals::told))]

ghost use Rattle.std.specs.Prelude.{◌≡◌, get_or};
ghost use Rattle.kinds.specs.Kinds.{number, slot, pin_no, txid};
ghost use Rattle.model.specs.Tests.{owner_test, reservation_test, observation_test, release_test};
ghost use Rattle.ledger_tests.specs.Told.{in_numbers};

use kinds::{PINS, SLOTS, Told};

fn refused(number: u64, slot: u64, id: u64, seen: u64) -> Told
    ensures { result ≡ record { number = number; slot = slot; id = id; seen = seen; at = 0 } }
{
    Told {
        number,
        slot,
        id,
        seen,
        at: 0,
    }
}

// What stands at a place, and 0 past the end.
fn number_at(column: &[u64], place: usize) -> u64
    ensures { result ≡ get_or column.now place 0 }
{
    column.get(place).copied().unwrap_or(0)
}

// Whether the transaction is registered there: 2, 4, 3.
pub fn owner(txids: &[u64], at: u64, id: u64) -> Result<(), Told>
    ensures { result ≡ in_numbers (owner_test SLOTS txids.now (slot at) (txid id)) }
{
    let place = at as usize;
    if SLOTS <= place {
        return Err(refused(2, at, 0, 0));
    }
    if id == 0 {
        return Err(refused(4, 0, 0, 0));
    }
    let seen = number_at(txids, place);
    if seen != id {
        return Err(refused(3, at, id, seen));
    }
    Ok(())
}

// How far above the clock a reserved number may lie.
const FARTHEST: u64 = 4294967296;

// Whether the number may be reserved: 5, 6, 13.
pub fn reservation(clock: u64, stamp: u64) -> Result<(), Told>
    ensures { result ≡ in_numbers (reservation_test clock (number stamp)) }
{
    if clock == u64::MAX {
        return Err(refused(5, 0, 0, 0));
    }
    if stamp == 0 || stamp < clock || stamp == u64::MAX {
        return Err(refused(6, 0, 0, 0));
    }
    if FARTHEST < stamp - clock {
        return Err(refused(13, 0, 0, 0));
    }
    Ok(())
}

// Whether the clock and its sample may be observed: 7, 8.
pub fn observation(former: u64, clock: u64, sample: u64) -> Result<(), Told>
    ensures { result ≡ in_numbers (observation_test former clock sample) }
{
    if clock < former {
        return Err(refused(7, 0, 0, 0));
    }
    if sample == 0 || clock < sample {
        return Err(refused(8, 0, 0, 0));
    }
    Ok(())
}

// Whether the pin holds a snapshot: 15, 16.
pub fn release(pins: &[u64], pin: u64) -> Result<(), Told>
    ensures { result ≡ in_numbers (release_test pins.now (pin_no pin)) }
{
    let place = pin as usize;
    if PINS <= place {
        return Err(refused(15, pin, 0, 0));
    }
    if number_at(pins, place) == 0 {
        return Err(refused(16, pin, 0, 0));
    }
    Ok(())
}
