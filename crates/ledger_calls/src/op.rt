// The op of a row's first number. `trace::Op` is the table's: the second engine has an enum of its own.
ghost use Rattle.std.specs.Prelude.{◌≡◌};
ghost use Rattle.ledger_calls.specs.Rows.{op_of};

#[derive(Clone, Copy, Debug, PartialEq, Eq)]
pub enum Op {
    Begin,
    End,
    Snap,
    Own,
    Oldest,
    Vacuum,
    Stamp,
    Finish,
    Pin,
    Unpin,
}

// 1 to 9 are the first nine in the order of SPEC 9.2; the tenth has every other number, so that no number is without an op: there is
// nothing for a `TryFrom` to refuse, and a `From` would not say which op takes the rest.
#[tactic(auto, unfolding(crate::specs::Rows::op_of, crate::specs::Rows::try_op))]
pub fn op_of(n: u64) -> Op
    ensures { result ≡ op_of n }
{
    match n {
        1 => Op::Begin,
        2 => Op::End,
        3 => Op::Snap,
        4 => Op::Own,
        5 => Op::Oldest,
        6 => Op::Vacuum,
        7 => Op::Stamp,
        8 => Op::Finish,
        9 => Op::Pin,
        _ => Op::Unpin,
    }
}
