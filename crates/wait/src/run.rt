// The steps of a wait, one after the other on a table that the loop owns.
ghost use Rattle.std.specs.Prelude.{◌≤◌, ◌≡◌, length};
ghost use Rattle.events.specs.Wait.{first_event, longest, events_from, Boundary};
ghost use Rattle.wait.specs.Waits.{answer_by, stepped_of};

use crate::Registration;
use kinds::{Refusal, SLOTS};
use model::Table;

// The table after the events, or the first of them that breaks its rule. The text was read, so that only events are left.
pub fn run_steps(table: Table, owner: Option<Registration>, s: &[u8]) -> Result<Table, Refusal>
    requires { (Boundary s.now first_event) × (length s.now ≤ longest) }
    ensures { answer_by table result ≡ stepped_of SLOTS owner table (events_from s.now first_event) }
{
    let mut now = table;
    let mut at = events::first_event();
    let mut step: u64 = 1;
    // No `for`: where the next event stands is known only once this one was read.
    while let Ok((event, next)) = events::event_at(s, at) {
        if !wait_rules::keeps_rule(&now.txids, now.counters, owner, event) {
            return Err(Refusal::BadStep(step));
        }
        let change = wait_rules::change_of(now.counters, event);
        changes::store(&mut now, change);
        at = next;
        step += 1;
    }
    Ok(now)
}
