// A refusal as numbers: what a printer or a caller in another language is given of it.
ghost use Rattle.std.specs.Prelude.{◌≡◌};
ghost use Rattle.kinds.specs.Refusals.{bare, told};

use crate::Refusal;

// Its number, and the slot or the pin, the id, the txid seen in the slot and the line of text or the step that it carries; 0 where it carries none.
#[derive(Clone, Copy, Debug, PartialEq, Eq)]
pub struct Told {
    pub number: u64,
    pub slot: u64,
    pub id: u64,
    pub seen: u64,
    pub at: u64,
}

// Every printer asks here, so that a new refusal touches this crate alone.
#[tactic(auto, unfolding(crate::specs::Refusals::told))]
pub fn tell(r: Refusal) -> Told
    ensures { result ≡ told r }
{
    match r {
        Refusal::NoFreeSlot(txid) => numbers(1, 0, txid.0, 0, 0),
        Refusal::InvalidSlot(slot) => numbers(2, slot.0 as u64, 0, 0, 0),
        Refusal::SlotOwnershipMismatch {
            slot,
            expected,
            observed,
        } => numbers(3, slot.0 as u64, expected.0, observed.0, 0),
        Refusal::ZeroTxid => bare_number(4),
        Refusal::ClockExhausted => bare_number(5),
        Refusal::BadReservation => bare_number(6),
        Refusal::BadClock => bare_number(7),
        Refusal::BadSample => bare_number(8),
        Refusal::BadTrace(line) => numbers(9, 0, 0, 0, line),
        Refusal::BadSnapshot => bare_number(10),
        Refusal::BadLength => bare_number(11),
        Refusal::NoRoom => bare_number(12),
        Refusal::WildJump => bare_number(13),
        Refusal::NoFreePin => bare_number(14),
        Refusal::InvalidPin(pin) => numbers(15, pin.0 as u64, 0, 0, 0),
        Refusal::FreePin(pin) => numbers(16, pin.0 as u64, 0, 0, 0),
        Refusal::EndedBefore => bare_number(17),
        Refusal::BadImage => bare_number(18),
        Refusal::TooManyCalls => bare_number(19),
        Refusal::BadRecord => bare_number(20),
        Refusal::BadEntry => bare_number(21),
        Refusal::BadStep(step) => numbers(22, 0, 0, 0, step),
    }
}

// The number alone: what an answer to C has of a refusal.
pub fn number_of(refusal: Refusal) -> u64
    ensures { result ≡ (told refusal).number }
{
    tell(refusal).number
}

fn numbers(number: u64, slot: u64, id: u64, seen: u64, at: u64) -> Told
    ensures { result ≡ record { number = number; slot = slot; id = id; seen = seen; at = at } }
{
    Told {
        number,
        slot,
        id,
        seen,
        at,
    }
}

fn bare_number(number: u64) -> Told
    ensures { result ≡ bare number }
{
    numbers(number, 0, 0, 0, 0)
}
