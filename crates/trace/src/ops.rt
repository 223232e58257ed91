// Which fields an op reads.
ghost use Rattle.std.specs.Prelude.{◌≡◌};
ghost use Rattle.trace.specs.Op.{reads_of};

use crate::Op;
use text::Reads;

// The fields that `op` reads. The fourth is the stamp, and with the clock goes the sample.
pub fn reads_of(op: Op) -> Reads
    ensures { result ≡ reads_of op }
{
    match op {
        Op::Begin | Op::Stamp => Reads {
            fourth: true,
            ..Reads::NONE
        },
        Op::End => Reads {
            slot: true,
            id: true,
            ..Reads::NONE
        },
        Op::Own => Reads {
            slot: true,
            id: true,
            clock: true,
            ..Reads::NONE
        },
        Op::Snap | Op::Oldest | Op::Vacuum | Op::Pin => Reads {
            clock: true,
            ..Reads::NONE
        },
        Op::Finish => Reads {
            slot: true,
            id: true,
            fourth: true,
            ..Reads::NONE
        },
        Op::Unpin => Reads {
            slot: true,
            ..Reads::NONE
        },
    }
}
