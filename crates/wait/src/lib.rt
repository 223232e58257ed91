// The check of what happened while one waited for the lock: an entry table, an owner or none, and events as text go in; an
// answer comes back. Crate wait_rules has the rule of each event and the owner.
#![tactic(auto)]

mod check;
mod run;

pub use check::check_wait;
use kinds::Refusal;
use model::Table;
pub use wait_rules::Registration;

// The table at the end of an accepted wait, or the entry table beside a refusal.
#[derive(Clone, Copy)]
pub struct WaitAnswer {
    pub table: Table,
    pub verdict: Result<(), Refusal>,
}
