// The text of what was decided.
ghost use Rattle.step.specs.Put.{PlainPut, ListingPut};

use crate::Ran;
use kinds::SLOTS;
use table::{Decision, SnapshotDecision};
use trace::Version;

// Of a call that shows no snapshot.
pub fn put_plain(version: Version, decided: Decision, buf: &mut [u8], at: usize) -> Ran
    ensures { PlainPut version SLOTS decided buf.old at buf.new result }
{
    let numbers = answer_numbers::plain_numbers(decided);
    let put = output::put_answer(version, buf, at, numbers, &[]);
    let change = decided.change;
    Ran { put, change }
}

// Of a snapshot call, which lists the ids in flight. What was decided is lent: by value its snapshot would be copied.
pub fn put_listing(version: Version, decided: &SnapshotDecision, buf: &mut [u8], at: usize) -> Ran
    ensures { ListingPut version SLOTS decided.now buf.old at buf.new result }
{
    let change = decided.change;
    let line = change.counters.vacuum_line;
    let shown = &decided.snapshot;
    let numbers = answer_numbers::numbers_of(
        decided.answer,
        shown.xmin,
        shown.xmax,
        shown.count,
        line,
    );
    let put = output::put_answer(version, buf, at, numbers, &shown.ids);
    Ran { put, change }
}
