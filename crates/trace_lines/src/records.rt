// What the items of a trace are: records, each named by its op.
ghost use Rattle.std.specs.Prelude.{◌≡◌};
ghost use Rattle.trace.specs.Op.{op_at};
ghost use Rattle.trace.specs.Record.{record_shape};

use items::Items;
use text::{Reads, Values};
use trace::{Op, Record};

const OPS: [Op; 10] = [
    Op::Begin,
    Op::End,
    Op::Snap,
    Op::Own,
    Op::Oldest,
    Op::Vacuum,
    Op::Stamp,
    Op::Finish,
    Op::Pin,
    Op::Unpin,
];

pub struct Records;

impl Items for Records {
    type Kind = Op;

    type Item = Record;

    ghost shape = { record_shape };

    fn key() -> &'static [u8] {
        b"op="
    }

    fn fourth() -> &'static [u8] {
        b"stamp="
    }

    fn kinds() -> &'static [Op] {
        &OPS
    }

    fn name(op: Op) -> &'static [u8] {
        match op {
            Op::Begin => b"begin\n",
            Op::End => b"end\n",
            Op::Snap => b"snap\n",
            Op::Own => b"own\n",
            Op::Oldest => b"oldest\n",
            Op::Vacuum => b"vacuum\n",
            Op::Stamp => b"stamp\n",
            Op::Finish => b"finish\n",
            Op::Pin => b"pin\n",
            Op::Unpin => b"unpin\n",
        }
    }

    fn reads(op: Op) -> Reads {
        trace::reads_of(op)
    }

    fn item(op: Op, values: Values) -> Record {
        Record {
            op,
            slot: values.slot,
            id: values.id,
            stamp: values.fourth,
            clock: values.clock,
            sample: values.sample,
        }
    }
}

// The op whose line stands at `at`.
#[tactic(auto, unfolding(trace::specs::Op::op_at))]
pub fn op_at(s: &[u8], at: usize) -> Option<(Op, usize)>
    ensures { result ≡ op_at s.now at }
{
    items::kind_at::<Records>(s, at)
}
