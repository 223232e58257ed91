// What a snapshot holds of the transactions in flight.
ghost use Rattle.std.specs.Prelude.{◌≡◌};
ghost use Rattle.model.specs.Tally.{active, places};
ghost use Rattle.ledger_scans.specs.Flight.{flight_of};

use kinds::SLOTS;

// The numbers of a snapshot, without its list.
#[derive(Clone, Copy, Debug, PartialEq, Eq)]
pub struct Flight {
    pub xmin: u64,
    pub xmax: u64,
    pub count: usize,
}

// The xmin goes down with each id, and the xmax up past it; where nobody is in flight both stay at the sample.
pub fn in_flight(txids: &[u64], sample: u64) -> Flight
    ensures { result ≡ flight_of txids.now sample }
{
    let mut flight = Flight {
        xmin: sample,
        xmax: sample,
        count: 0,
    };
    for &id in txids {
        if id == 0 {
            continue;
        }
        flight.xmin = flight.xmin.min(id);
        flight.xmax = flight.xmax.max(id.saturating_add(1));
        flight.count += 1;
    }
    flight
}

// The list: the ids in slot order from place 0 on, and zeros.
pub fn listed_ids(txids: [u64; SLOTS]) -> [u64; SLOTS]
    ensures { result ≡ places SLOTS (active txids) }
{
    let mut ids = [0u64; SLOTS];
    for (place, &id) in txids.iter().filter(|id| **id != 0).enumerate() {
        ids[place] = id;
    }
    ids
}
