// Which slot, or which pin, nobody has.
ghost use Rattle.std.specs.Prelude.{◌≡◌};
ghost use Rattle.model.specs.Tally.{lowest_empty};

// The lowest place of the column that is 0; its length where there is none.
pub fn lowest_free(column: &[u64]) -> usize
    ensures { result ≡ lowest_empty column.now }
{
    column
        .iter()
        .position(|held| *held == 0)
        .unwrap_or(column.len())
}
