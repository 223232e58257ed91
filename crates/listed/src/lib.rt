// Whether an id stands among the ids of a snapshot.
#![tactic(auto)]

ghost use Rattle.std.specs.Prelude.{◌≡◌, take};
ghost use Rattle.listed.specs.Listed.{listed};

// Whether x is among the first `count` ids. Eight places a turn, then those that are left; it leaves with the first turn that has a match.
pub fn is_listed(ids: &[u64], count: usize, x: u64) -> bool
    ensures { result ≡ listed x (take count ids.now) }
{
    // The count is the snapshot's, and no length of the ids: one above their places is refused by whoever asks.
    let (turns, rest) = ids[..count.min(ids.len())].as_chunks::<8>();
    turns.iter().any(|turn| turns::holds(turn, x)) || rest.contains(&x)
}
