// The snapshot calls.
ghost use Rattle.std.specs.Prelude.{◌≡◌, MatchResult};
ghost use Rattle.model.specs.Changes.{refused_decision};
ghost use Rattle.step.specs.Put.{PlainPut, ListingPut};

use crate::Ran;
use crate::put::{put_listing, put_plain};
use kinds::{Refusal, SLOTS};
use table::{Counters, Decision, SnapshotDecision};
use trace::Version;

// Decides a snapshot call that the verdict lets pass, and puts its text. A snapshot is as long as the table: for a call that is
// refused none is made.
pub fn run_listing<F: FnOnce() -> SnapshotDecision>(
    version: Version,
    was: Counters,
    verdict: Result<(), Refusal>,
    decide: F,
    buf: &mut [u8],
    at: usize,
) -> Ran
    requires { F.IsAlwaysCallable decide }
    ensures { MatchResult verdict
        (λ _. (d : _) × F.post decide d × ListingPut version SLOTS d buf.old at buf.new result)
        (λ r. PlainPut version SLOTS (refused_decision was r) buf.old at buf.new result) }
{
    match verdict {
        Ok(()) => put_listing(version, &decide(), buf, at),
        Err(r) => put_plain(version, Decision::refused(was, r), buf, at),
    }
}
