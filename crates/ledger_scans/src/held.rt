// What holds the vacuum back, and who: one walk from the last place down. A number that is not above the lowest so far takes its
// place, so that of equal ones the lowest slot is met last and stays; and the slots are walked after the pins, so that a slot stays
// before a pin.
ghost use Rattle.std.specs.Prelude.{◌≡◌};
ghost use Rattle.ledger_scans.specs.Held.{held_from, held_of};

use model::Columns;

// The oldest retained xmin, and its holder.
#[derive(Clone, Copy, Debug, PartialEq, Eq)]
pub struct Held {
    pub xmin: u64,
    pub holder: u64,
}

// Taken up from what was held before; the first place is told as `first`.
fn held_among(taken: &[u64], xmins: &[u64], first: u16, before: Held) -> Held
    ensures { result ≡ held_from first taken.now xmins.now before }
{
    let mut held = before;
    // By place: the library says what `rev` yields of a slice's own items, and nothing of `rev` past `zip` and `enumerate`.
    for place in (0..taken.len().min(xmins.len())).rev() {
        if taken[place] != 0 && xmins[place] <= held.xmin {
            held = Held {
                xmin: xmins[place],
                holder: u64::from(first) + place as u64,
            };
        }
    }
    held
}

// Of the sample, the pins and the taken slots. A pin is told as 2,000 and its number, and nobody as 65,535.
pub fn held_back(columns: Columns<'_>, sample: u64) -> Held
    ensures { result
        ≡ held_of columns.entry.txids.now columns.entry.snapshot_xmins.now columns.entry.pins.now sample }
{
    let nobody = Held {
        xmin: sample,
        holder: 65535,
    };
    let by_pins = held_among(columns.pins, columns.pins, 2000, nobody);
    held_among(columns.txids, columns.snapshot_xmins, 0, by_pins)
}
