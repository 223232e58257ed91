// When an event may happen: the rule of each, on lent txids.
ghost use Rattle.std.specs.Prelude.{◌≡◌};
ghost use Rattle.kinds.specs.Kinds.{number};
ghost use Rattle.model.specs.Tables.{lent_txids};
ghost use Rattle.model.specs.Tests.{reservation_test, observation_test};
ghost use Rattle.wait_rules.specs.Steps.{may_name, passed, register_rule, end_rule, horizon_rule, event_test};

use crate::Registration;
use events::{Event, Kind};
use kinds::{SLOTS, Stamp};
use model::Counters;

// A slot that the table has, and that is not the owner's.
fn may_name(owner: Option<Registration>, slot: u16) -> bool
    ensures { result ≡ may_name SLOTS owner slot }
{
    usize::from(slot) < SLOTS && owner.is_none_or(|own| own.slot.0 != slot)
}

fn may_reserve(clock: u64, id: u64) -> bool
    ensures { result ≡ passed (reservation_test clock (number id)) }
{
    clock_verdicts::reservation_test(clock, Stamp(id)).is_ok()
}

fn may_observe(former: u64, clock: u64, sample: u64) -> bool
    ensures { result ≡ passed (observation_test former clock sample) }
{
    clock_verdicts::observation_test(former, clock, sample).is_ok()
}

#[tactic(auto, unfolding(crate::specs::Steps::register_rule))]
fn may_register(txids: &[u64], clock: u64, owner: Option<Registration>, e: Event) -> bool
    ensures { result ≡ register_rule SLOTS txids.now clock owner e.slot e.id }
{
    let held = txids.get(usize::from(e.slot)).copied().unwrap_or(0);
    may_name(owner, e.slot) && held == 0 && may_reserve(clock, e.id)
}

#[tactic(auto, unfolding(crate::specs::Steps::end_rule))]
fn may_end(txids: &[u64], owner: Option<Registration>, e: Event) -> bool
    ensures { result ≡ end_rule SLOTS txids.now owner e.slot }
{
    let held = txids.get(usize::from(e.slot)).copied().unwrap_or(0);
    may_name(owner, e.slot) && held != 0
}

// The least active id is found as oldest finds the smallest xmin, with the txids for the xmins.
#[tactic(auto, using(model::proofs::Tally::retained_self), unfolding(crate::specs::Steps::horizon_rule))]
fn may_set_horizon(txids: &[u64], owner: Option<Registration>, e: Event) -> bool
    ensures { result ≡ horizon_rule SLOTS txids.now owner e.slot e.xmin }
{
    let held = txids.get(usize::from(e.slot)).copied().unwrap_or(0);
    may_name(owner, e.slot)
        && held != 0
        && 1 <= e.xmin
        && e.xmin <= taken_scans::oldest_retained(txids, txids, held)
}

// Whether an event keeps its rule. The kinds stand in one `match`: each rule looks at other parts of the event and of the table.
#[tactic(auto, unfolding(crate::specs::Steps::event_test, crate::specs::Steps::rule_of))]
pub fn keeps_rule(txids: &[u64], was: Counters, owner: Option<Registration>, e: Event) -> bool
    ensures { result ≡ event_test SLOTS (lent_txids txids.now was) owner e }
{
    match e.kind {
        Kind::Register => may_register(txids, was.clock, owner, e),
        Kind::End => may_end(txids, owner, e),
        Kind::Horizon => may_set_horizon(txids, owner, e),
        Kind::Reserve => may_reserve(was.clock, e.id),
        Kind::Observe => may_observe(was.clock, e.clock, e.sample),
    }
}
