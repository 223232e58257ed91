// The numbers of an answer in a host's run.
ghost use Rattle.std.specs.Prelude.{◌≡◌};
ghost use Rattle.answer_numbers.specs.Plain.{plain_numbers};
ghost use Rattle.place.specs.Shapes.{told_in};

use crate::shape::HEAD;
use model::{Decision, Numbers};

// Writes an answer into the first words of the run, and answers its number. A run that is too short stays.
pub fn tell(out: &mut [u64], numbers: Numbers) -> u64
    ensures value { result ≡ numbers.told.number }
    ensures out_after { out.new ≡ told_in out.old numbers }
{
    let told = numbers.told;
    if out.len() < HEAD {
        return told.number;
    }
    out[..HEAD].copy_from_slice(&[
        told.slot,
        told.id,
        told.seen,
        numbers.xmin,
        numbers.xmax,
        numbers.vacuum_line,
        numbers.count as u64,
        numbers.holder,
    ]);
    told.number
}

// Of a call that shows no snapshot.
pub fn tell_plain(out: &mut [u64], decided: Decision) -> u64
    ensures value { result ≡ (plain_numbers decided).told.number }
    ensures out_after { out.new ≡ told_in out.old (plain_numbers decided) }
{
    tell(out, answer_numbers::plain_numbers(decided))
}
