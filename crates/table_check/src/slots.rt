// The part of the check that reads each slot by itself.
ghost use Rattle.std.specs.Prelude.{◌≡◌};
ghost use Rattle.model.specs.Check.{slot_passes, slots_pass};

use model::Counters;

// An empty slot has snapshot_xmin 0; a taken one has 1 ≤ snapshot_xmin ≤ txid < clock, and line ≤ txid.
fn slot_passes(txid: u64, xmin: u64, counters: Counters) -> bool
    ensures { result ≡ slot_passes counters.clock counters.vacuum_line txid xmin }
{
    if txid == 0 {
        return xmin == 0;
    }
    1 <= xmin && xmin <= txid && txid < counters.clock && counters.vacuum_line <= txid
}

// The columns are equally long, and every slot passes.
pub fn slots_pass<'a>(txids: &'a [u64], xmins: &'a [u64], counters: Counters) -> bool
    ensures { result ≡ slots_pass counters.clock counters.vacuum_line txids.now xmins.now }
{
    txids.len() == xmins.len()
        && txids
            .iter()
            .zip(xmins)
            .all(|(&txid, &xmin)| slot_passes(txid, xmin, counters))
}
