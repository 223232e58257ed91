// What is common to the calls: the counters after them, their answers as numbers, and the three kinds of deed. Some of it stands in the
// table's crates too (`counters`, `answer_numbers`): the second engine shares no code with the table's.
ghost use Rattle.std.specs.Prelude.{◌≡◌};
ghost use Rattle.kinds.specs.Kinds.{saturating_next};
ghost use Rattle.model.specs.Tables.{counted};
ghost use Rattle.model.specs.Changes.{observed};
ghost use Rattle.model.specs.Answers.{accepted_with};
ghost use Rattle.ledger_calls.specs.Deeds.{plainly, showing, holding, stayed, in_slot, in_pin};

use crate::{Deed, Did, Moved};
use kinds::Told;
use ledger_scans::Flight;
use model::{Counters, Numbers};

// A spent number moves the clock past it.
pub fn past(was: Counters, number: u64) -> Counters
    ensures { result ≡ counted (saturating_next number) was.sampled_clock was.vacuum_line }
{
    Counters {
        clock: number.saturating_add(1),
        ..was
    }
}

// An observation.
pub fn seen(was: Counters, clock: u64, sample: u64) -> Counters
    ensures { result ≡ observed clock sample was }
{
    Counters {
        clock,
        sampled_clock: sample,
        ..was
    }
}

pub fn accepted(slot: u64, id: u64) -> Told
    ensures { result ≡ accepted_with slot id }
{
    Told {
        number: 0,
        slot,
        id,
        seen: 0,
        at: 0,
    }
}

// An answer of what is told and the line alone.
pub fn plain(told: Told, line: u64) -> Numbers
    ensures { result ≡ plainly told line }
{
    Numbers {
        told,
        xmin: 0,
        xmax: 0,
        vacuum_line: line,
        count: 0,
        holder: 0,
    }
}

// .. of a snapshot.
pub fn shown(told: Told, flight: Flight, line: u64) -> Numbers
    ensures { result ≡ showing told flight line }
{
    Numbers {
        xmin: flight.xmin,
        xmax: flight.xmax,
        count: flight.count,
        ..plain(told, line)
    }
}

// .. of who holds the vacuum back.
pub fn held(xmin: u64, holder: u64, line: u64) -> Numbers
    ensures { result ≡ holding xmin holder line }
{
    Numbers {
        xmin,
        holder,
        ..plain(accepted(0, 0), line)
    }
}

// No slot and no pin moves.
pub fn stays(numbers: Numbers, counters: Counters) -> Did
    ensures { result ≡ stayed numbers counters }
{
    let moved = Moved::Nothing;
    Did {
        deed: Deed { moved, counters },
        numbers,
    }
}

// A slot becomes (txid, xmin).
pub fn in_slot(numbers: Numbers, place: usize, txid: u64, xmin: u64, counters: Counters) -> Did
    ensures { result ≡ in_slot numbers place txid xmin counters }
{
    let moved = Moved::Slot { place, txid, xmin };
    Did {
        deed: Deed { moved, counters },
        numbers,
    }
}

// A pin becomes `held`.
pub fn in_pin(numbers: Numbers, pin: usize, held: u64, counters: Counters) -> Did
    ensures { result ≡ in_pin numbers pin held counters }
{
    let moved = Moved::Pin { pin, held };
    Did {
        deed: Deed { moved, counters },
        numbers,
    }
}
