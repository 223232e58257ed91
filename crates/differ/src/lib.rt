// The part of the table check that holds slots against each other.
#![tactic(auto)]

ghost use Rattle.std.specs.Prelude.{◌≡◌};
ghost use Rattle.model.specs.Check.{differ};

// More than there are ids in a table, so that ids that were taken one after the other have a mark each.
const MARKS: usize = 4096;

// Taken txids differ. From the last place on, each taken txid sets the mark that its lowest digits name: the later places
// are searched only for an id whose mark one of them has set.
pub fn txids_differ(txids: &[u64]) -> bool
    ensures { result ≡ differ txids.now }
{
    let mut marks = [false; MARKS];
    // By place: the places after this one are searched from it on, and the invariant speaks of it. With the txid beside it, no less is said.
    for i in (0..txids.len()).rev() {
        let txid = txids[i];
        if txid == 0 {
            continue;
        }
        let mark = (txid % MARKS as u64) as usize;
        if marks[mark] && txids[i + 1..].contains(&txid) {
            return false;
        }
        marks[mark] = true;
    }
    true
}
