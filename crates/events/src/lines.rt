// An event of six lines.
ghost use Rattle.std.specs.Prelude.{◌≡◌};
ghost use Rattle.events.specs.Event.{event_at};

use crate::Event;
use crate::kinds::Events;

// The event at `at`, or the first of its six lines that breaks a rule.
#[tactic(auto, unfolding(crate::specs::Event::event_at))]
pub fn event_at(s: &[u8], at: usize) -> Result<(Event, usize), usize>
    ensures { result ≡ event_at s.now at }
{
    items::item_at::<Events>(s, at)
}
