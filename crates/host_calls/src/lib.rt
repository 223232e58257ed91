// The settled test, the usable test and the table check for a host in C or Rust (SPEC 18), linked as a static library: on
// numbers and bytes. host/sockhurdle_host.h declares these functions for C; a slice is a pointer and a length there.
#![tactic(auto)]

ghost use Rattle.std.specs.Prelude.{◌≡◌, ◌&&◌, not, ltb};
ghost use Rattle.kinds.specs.Kinds.{txid};
ghost use Rattle.kinds.specs.Verdicts.{then, zero_test};
ghost use Rattle.listed.specs.Listed.{listed};
ghost use Rattle.settled.specs.Settled.{count_test, paper_settled};
ghost use Rattle.image.specs.Lists.{count_of, ids_of};
ghost use Rattle.host_calls.specs.Answers.{settled_number, list_test, settled_answer, usable_answer, check_answer};

use kinds::{Refusal, SLOTS};

// The number that C gets: 1 for yes, 0 for no, or the refusal's.
fn answered(said: Result<bool, Refusal>) -> u64
    ensures { result ≡ settled_number (paper_settled said) }
{
    match said {
        Ok(yes) => u64::from(yes),
        Err(refusal) => kinds::number_of(refusal),
    }
}

// The refusals of a list and an id, in the order 18, 10, 4.
fn asked(list: &[u8], id: u64) -> Result<(), Refusal>
    ensures { result
        ≡ then (list_test list.now) (then (count_test SLOTS (count_of list.now)) (zero_test (txid id))) }
{
    if list.len() % 8 != 0 {
        return Err(Refusal::BadImage);
    }
    if SLOTS < list.len() / 8 {
        return Err(Refusal::BadSnapshot);
    }
    if id == 0 {
        return Err(Refusal::ZeroTxid);
    }
    Ok(())
}

// The settled test on a list as it lies: no id is copied.
fn is_settled(xmax: u64, list: &[u8], id: u64) -> bool
    ensures { result ≡ (ltb id xmax && not (listed id (ids_of list.now))) }
{
    id < xmax && !image::lists(list, id)
}

// Whether every reader of the snapshot may use what `id` made; `list` has the ids in flight. Answers 1 for yes, 0 for no,
// else refusal 18, 10 or 4.
#[unsafe(no_mangle)]
pub extern "C" fn sockhurdle_settled(xmax: u64, list: &[u8], id: u64) -> u64
    ensures { result ≡ settled_answer SLOTS xmax list.now id }
{
    answered(asked(list, id).map(|()| is_settled(xmax, list, id)))
}

// Whether a reader may use what `id` made: it is settled, or the reader's own (0 for none). Answers as sockhurdle_settled. Of
// its own id the refusals alone are asked, and the list is not read.
#[unsafe(no_mangle)]
pub extern "C" fn sockhurdle_usable(xmax: u64, list: &[u8], id: u64, own: u64) -> u64
    ensures { result ≡ usable_answer SLOTS xmax list.now id own }
{
    answered(asked(list, id).map(|()| own == id || is_settled(xmax, list, id)))
}

// Whether the table of an image passes the table check. Answers 1 for yes, 0 for no, or refusal 18.
#[unsafe(no_mangle)]
pub extern "C" fn sockhurdle_check_image(image: &[u8]) -> u64
    ensures { result ≡ check_answer SLOTS image.now }
{
    answered(image::read_image(image).map(table_check::check_table))
}
