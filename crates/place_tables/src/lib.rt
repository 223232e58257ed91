// A table's words that the host makes or finds (SPEC 20): how many they are, the fresh table, and the table check.
#![tactic(auto)]

ghost use Rattle.std.specs.Prelude.{◌≡◌};
ghost use Rattle.place.specs.Words.{size_of};
ghost use Rattle.place_tables.specs.Tables.{fresh_number, fresh_after, check_number};

use kinds::{Refusal, SLOTS};
use place::{CLOCK, LINE, SAMPLE, WORDS};

// How many words a table has.
#[unsafe(no_mangle)]
pub extern "C" fn sockhurdle_words() -> usize
    ensures { result ≡ size_of SLOTS }
{
    CLOCK + 3
}

// Makes a run of words the fresh table, and answers 0; 18 for a run of another length, which stays.
#[unsafe(no_mangle)]
#[tactic(auto, unfolding(crate::specs::Tables::fresh_number, crate::specs::Tables::fresh_after))]
pub extern "C" fn sockhurdle_fresh(table: &mut [u64]) -> u64
    ensures result_value { result ≡ fresh_number SLOTS table.old }
    ensures table_after { table.new ≡ fresh_after SLOTS table.old }
{
    if table.len() != WORDS {
        return kinds::number_of(Refusal::BadImage);
    }
    table.fill(0);
    table[CLOCK] = 1;
    table[SAMPLE] = 1;
    table[LINE] = 1;
    0
}

// Whether words that somebody else wrote are a table that passes the check: 1 for yes, 0 for no, 18 for another length.
#[unsafe(no_mangle)]
#[tactic(auto, unfolding(crate::specs::Tables::check_number))]
pub extern "C" fn sockhurdle_check(table: &[u64]) -> u64
    ensures { result ≡ check_number SLOTS table.now }
{
    if table.len() != WORDS {
        return kinds::number_of(Refusal::BadImage);
    }
    let passes = table_check::check_columns(place::columns_in(table));
    u64::from(passes)
}
