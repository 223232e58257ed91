// Whether the runs of a call have lengths that fit. They are asked before anything is read.
ghost use Rattle.std.specs.Prelude.{◌≡◌};
ghost use Rattle.place.specs.Shapes.{shape_verdict, list_verdict};

use crate::words::WORDS;
use kinds::{Refusal, SLOTS};

// How many words an answer takes: slot, id, seen, xmin, xmax, line, count, holder.
pub const HEAD: usize = 8;

// 18 for a table of another length, then 12 for a run that is too short for an answer.
#[tactic(auto, unfolding(crate::specs::Shapes::shape_verdict))]
pub fn shape_test(table: usize, out: usize) -> Result<(), Refusal>
    ensures { result ≡ shape_verdict SLOTS table out }
{
    if table != WORDS {
        return Err(Refusal::BadImage);
    }
    if out < HEAD {
        return Err(Refusal::NoRoom);
    }
    Ok(())
}

// The same for a call that lists ids: 12 also where they might not fit.
#[tactic(auto, unfolding(crate::specs::Shapes::list_verdict))]
pub fn list_shape(table: usize, out: usize, ids: usize) -> Result<(), Refusal>
    ensures { result ≡ list_verdict SLOTS table out ids }
{
    shape_test(table, out)?;
    if ids < SLOTS {
        return Err(Refusal::NoRoom);
    }
    Ok(())
}
