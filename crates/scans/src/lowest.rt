// The scan that begin makes.
ghost use Rattle.std.specs.Prelude.{◌≡◌};
ghost use Rattle.model.specs.Tally.{lowest_empty};

// The lowest empty slot, or the number of slots where all are taken: turns whose slots are all taken are passed over whole.
pub fn lowest_empty(txids: &[u64]) -> usize
    ensures { result ≡ lowest_empty txids.now }
{
    // The number of slots stands for none: a column that is shorter than a table has an empty slot past its end.
    let (turns, _) = txids.as_chunks::<8>();
    let full = turns.iter().take_while(|turn| !turns::holds(*turn, 0));
    let passed = 8 * full.count();
    let taken = txids[passed..].iter().take_while(|txid| **txid != 0);
    passed + taken.count()
}
