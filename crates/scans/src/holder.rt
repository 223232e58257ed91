// The second scan that oldest and vacuum make.
ghost use Rattle.std.specs.Prelude.{◌<◌, ◌≡◌, length, position, IfSome};
ghost use Rattle.std.specs.List.{zip};
ghost use Rattle.model.specs.Tally.{holder_of, holds};

// The first of these slots that is taken and retains xmin.
fn holder_among(txids: &[u64], xmins: &[u64], xmin: u64) -> Option<usize>
    ensures found { result ≡ position (λ slot. holds slot.0 slot.1 xmin) (zip txids.now xmins.now) }
    ensures within { IfSome result (λ at. at < length xmins.now) }
{
    txids
        .iter()
        .zip(xmins)
        .position(|(txid, retained)| *txid != 0 && *retained == xmin)
}

// The lowest taken slot whose snapshot_xmin is `xmin`, and `otherwise` where there is none. Turns that do not have it are passed over whole.
pub fn lowest_holder<'a>(txids: &'a [u64], xmins: &'a [u64], xmin: u64, otherwise: u64) -> u64
    ensures { result ≡ holder_of txids.now xmins.now xmin otherwise }
{
    // `otherwise` is the caller's: a holder is told as one number, of slots or of pins, and there is one for nobody too.
    let end = turns::shorter(txids.len(), xmins.len());
    let (turns, rest) = xmins[..end].as_chunks::<8>();
    for (turn, eight) in turns.iter().enumerate() {
        if !turns::holds(eight, xmin) {
            continue;
        }
        let first = 8 * turn;
        let Some(at) = holder_among(&txids[first..], eight, xmin) else {
            continue;
        };
        return (first + at) as u64;
    }
    let first = 8 * turns.len();
    match holder_among(&txids[first..], rest, xmin) {
        Some(at) => (first + at) as u64,
        None => otherwise,
    }
}
