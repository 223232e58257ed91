// The batch decision for a host in Rust or C (SPEC 20.4): which versions of a run the vacuum may remove.
#![tactic(auto)]

ghost use Rattle.std.specs.Prelude.{◌≡◌, length};
ghost use Rattle.place_batch.specs.Batched.{batch_number, batch_run, batch_out};

use batch::BadVersion;
use kinds::{Refusal, number_of};

// Judges versions, each its maker's id and its ender's, 0 for still alive, and decides on each in `run`: 1 where it may go, else 0.
// Answers 0, or a refusal's number; the first word of `out` has the place of the version that is bad, else 0. 12 also where `out`
// has no word.
#[unsafe(no_mangle)]
pub extern "C" fn sockhurdle_batch(
    line: u64,
    versions: &[[u64; 2]],
    run: &mut [u8],
    out: &mut [u64],
) -> u64
    ensures value { result ≡ batch_number versions.now (length run.old) (length out.old) }
    ensures run_after { run.new ≡ batch_run line versions.now run.old (length out.old) }
    ensures out_after { out.new ≡ batch_out versions.now (length run.old) out.old }
{
    if out.is_empty() {
        return number_of(Refusal::NoRoom);
    }
    match batch::decide_batch(line, versions, run) {
        Ok(()) => {
            out[0] = 0;
            0
        }
        Err(BadVersion { refusal, place }) => {
            out[0] = place as u64;
            number_of(refusal)
        }
    }
}
