// The headers that are known, and the ops that each of them allows.
ghost use Rattle.std.specs.Prelude.{◌≡◌};
ghost use Rattle.trace.specs.Version.{of_pins, allowed};

use crate::{Op, Version};

// Whether an op is one of pins.
fn is_of_pins(op: Op) -> bool
    ensures { result ≡ of_pins op }
{
    matches!(op, Op::Pin | Op::Unpin)
}

// Whether a record under this header may name this op.
#[tactic(auto, unfolding(crate::specs::Version::allowed))]
pub fn allows(version: Version, op: Op) -> bool
    ensures { result ≡ allowed version op }
{
    match version {
        Version::Proc1 | Version::Proc2 => !is_of_pins(op),
        Version::Proc3 => true,
    }
}
