// Eight places of a column in one turn: most slots of a table are empty, and a scan passes over those eight at a time. All eight are
// compared, without a branch between them; the laws of such turns are in proofs/Turns.antt.
#![tactic(auto)]

ghost use Rattle.std.specs.Prelude.{min, ◌≡◌, ◌==◌};
ghost use Rattle.std.specs.List.{list_all, list_any};

// The smaller number of places.
pub fn shorter(a: usize, b: usize) -> usize
    ensures { result ≡ min a b }
{
    a.min(b)
}

// Whether x stands at one of the eight.
pub fn holds(turn: &[u64; 8], x: u64) -> bool
    ensures { result ≡ list_any (λ y. y == x) turn.now }
{
    turn.iter().fold(false, |found, y| found | (*y == x))
}

// Whether x stands at all eight.
pub fn holds_only(turn: &[u64; 8], x: u64) -> bool
    ensures { result ≡ list_all (λ y. y == x) turn.now }
{
    turn.iter().fold(true, |all, y| all & (*y == x))
}
