// What a call that lists ids leaves in the host's runs (SPEC 20): its change stored, its answer told beside what was taken.
#![tactic(auto)]

mod shows;

ghost use Rattle.std.specs.Prelude.{◌≡◌};
ghost use Rattle.place.specs.Words.{stored_words};
ghost use Rattle.answer_numbers.specs.Plain.{plain_numbers};
ghost use Rattle.place.specs.Shapes.{told_in};
ghost use Rattle.place_answers.specs.Taken.{refused_with, taken_numbers};

use kinds::{Refusal, SLOTS};
use model::{Counters, Decision};
pub use shows::{Passed, Retainer, Shows, show};
use taken_scans::Taken;

// Of an accepted call.
pub fn give(table: &mut [u64], out: &mut [u64], decided: Decision, taken: Taken) -> u64
    ensures value { result ≡ (taken_numbers decided taken).told.number }
    ensures table_after { table.new ≡ stored_words SLOTS table.old decided.change }
    ensures out_after { out.new ≡ told_in out.old (taken_numbers decided taken) }
{
    let line = decided.change.counters.vacuum_line;
    let Taken { xmin, xmax, count } = taken;
    let numbers = answer_numbers::numbers_of(decided.answer, xmin, xmax, count, line);
    place::store(table, decided.change);
    place::tell(out, numbers)
}

// Of a refused one: nothing was taken, and the counters stay.
pub fn refuse(table: &mut [u64], out: &mut [u64], was: Counters, r: Refusal) -> u64
    ensures value { result ≡ (plain_numbers (refused_with was r)).told.number }
    ensures table_after { table.new ≡ stored_words SLOTS table.old (refused_with was r).change }
    ensures out_after { out.new ≡ told_in out.old (plain_numbers (refused_with was r)) }
{
    let decided = Decision::refused(was, r);
    place::store(table, decided.change);
    place::tell_plain(out, decided)
}
