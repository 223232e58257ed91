// An op as a number, from 1 in the order of SPEC 9.2, so that a row of zeros names none.
#![tactic(auto)]

ghost use Rattle.std.specs.Prelude.{◌≡◌};
ghost use Rattle.op_numbers.specs.Numbers.{op_number, op_numbered};

use trace::Op;

// The number of an op. No `From` and `TryFrom`: those would stand in the crate of `Op`, and the order is stated here, once.
pub fn op_number(op: Op) -> u64
    ensures { result ≡ op_number op }
{
    match op {
        Op::Begin => 1,
        Op::End => 2,
        Op::Snap => 3,
        Op::Own => 4,
        Op::Oldest => 5,
        Op::Vacuum => 6,
        Op::Stamp => 7,
        Op::Finish => 8,
        Op::Pin => 9,
        Op::Unpin => 10,
    }
}

// The op of a number.
#[tactic(auto, unfolding(crate::specs::Numbers::op_numbered, crate::specs::Numbers::try_number))]
pub fn op_of(n: u64) -> Option<Op>
    ensures { result ≡ op_numbered n }
{
    match n {
        1 => Some(Op::Begin),
        2 => Some(Op::End),
        3 => Some(Op::Snap),
        4 => Some(Op::Own),
        5 => Some(Op::Oldest),
        6 => Some(Op::Vacuum),
        7 => Some(Op::Stamp),
        8 => Some(Op::Finish),
        9 => Some(Op::Pin),
        10 => Some(Op::Unpin),
        _ => None,
    }
}
