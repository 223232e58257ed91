// A list of ids is searched where it lies: no number is copied, and nothing is set aside for it.
ghost use Rattle.std.specs.Prelude.{◌≡◌, ◌==◌};
ghost use Rattle.std.specs.List.{list_any};
ghost use Rattle.std.specs.Int.{w64, from_le_bytes};
ghost use Rattle.listed.specs.Listed.{listed};
ghost use Rattle.image.specs.Lists.{ids_of};

// Whether x is among some numbers: all are compared, without a branch between them.
fn is_near(words: &[[u8; 8]], x: u64) -> bool
    ensures { result ≡ list_any (λ word. from_le_bytes w64 word == x) words.now }
{
    words.iter().fold(
        false,
        |found, word| found | (u64::from_le_bytes(*word) == x),
    )
}

// Whether x is among the numbers of a list, however many they are. Eight a turn, then those that are left; it leaves with the
// first turn that has a match. Bytes past the last whole number play no part.
pub fn lists(list: &[u8], x: u64) -> bool
    ensures { result ≡ listed x (ids_of list.now) }
{
    let (words, _) = list.as_chunks::<8>();
    let (turns, rest) = words.as_chunks::<8>();
    turns.iter().any(|turn| is_near(turn, x)) || is_near(rest, x)
}
