// Where the text leaves the program. A contract can't say what a write does outside, so this file is to be read by eye;
// it is short for that. What is handed to it, in which order and for which descriptor, is proved of its callers.
// Both structs have private fields: only this file can say that a piece was handed on, or that a write failed. They are two types of
// one shape, so that neither is taken for the other: after a write that failed nothing more is handed on.
ghost use Rattle.std.specs.Prelude.{◌≡◌, length};
ghost use Rattle.replay.specs.Sent.{handed, WentFits, PieceNext};

use kinds::SLOTS;

// So many pieces of the text went to a descriptor, each whole.
#[derive(Clone, Copy)]
pub struct Handed {
    to: i32,
    pieces: usize,
}

// A write failed after so many pieces; of the next one some bytes may have gone.
#[derive(Clone, Copy)]
pub struct Stopped {
    to: i32,
    pieces: usize,
}

// Nothing has gone to a descriptor yet.
pub fn nothing(to: i32) -> Handed
    ensures { result ≡ handed to 0 }
{
    Handed { to, pieces: 0 }
}

// Hands on the next piece of the text of the trace `s`. It takes the trace so that the contract can say which bytes those are.
pub fn hand_on(s: &[u8], gone: Handed, piece: &[u8]) -> Result<Handed, Stopped>
    requires { PieceNext SLOTS s.now gone (length piece.now) piece.now }
    ensures { WentFits gone result }
{
    let Handed { to, pieces } = gone;
    if io::write_all(to, piece) {
        Ok(Handed {
            to,
            pieces: pieces + 1,
        })
    } else {
        Err(Stopped { to, pieces })
    }
}
