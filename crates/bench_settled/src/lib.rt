// The settled test asked over and over, lent and by value, and the usable test lent: what bench/settled times. It promises nothing
// but safety.
#![tactic(auto)]

mod lent_usable;

ghost use Rattle.std.specs.Prelude.{◌≡◌};

use kinds::{Refusal, SLOTS, Txid};
pub use lent_usable::bench_usable_lent;
use settled::Snapshot;

// How many slots the measured snapshots have.
#[unsafe(no_mangle)]
pub extern "C" fn bench_settled_slots() -> u64
    ensures { result ≡ SLOTS }
{
    SLOTS as u64
}

// What a round adds to the checksum.
fn marked(sum: u64, round: u64, answer: Result<bool, Refusal>) -> u64 {
    match answer {
        Ok(true) => sum.wrapping_add(round),
        Ok(false) => sum.wrapping_add(1),
        Err(_) => sum,
    }
}

// Each round asks for one id; the ids to ask for go round, and a round in which there is none asks for nothing.
pub(crate) fn each_asked<F: Fn(Txid) -> Result<bool, Refusal>>(
    asked: &[u64],
    rounds: u64,
    ask: F,
) -> u64
    requires { F.IsAlwaysCallable ask }
{
    let mut sum: u64 = 0;
    let mut at: usize = 0;
    for round in 0..rounds {
        let Some(&id) = asked.get(at) else {
            at = 0;
            continue;
        };
        at += 1;
        sum = marked(sum, round.wrapping_add(1), ask(Txid(id)));
    }
    sum
}

// The settled test, on a snapshot's parts, lent.
#[unsafe(no_mangle)]
pub extern "C" fn bench_settled_lent(
    ids: &[u64],
    count: usize,
    xmax: u64,
    asked: &[u64],
    rounds: u64,
) -> u64 {
    each_asked(asked, rounds, |id| {
        settled::is_settled_among(ids, count, xmax, id)
    })
}

// The snapshot with these ids in its first places.
fn gathered(ids: &[u64], count: usize, xmax: u64) -> Snapshot {
    let mut places = kinds::zeros();
    for (place, id) in places.iter_mut().zip(ids) {
        *place = *id;
    }
    Snapshot {
        xmin: 1,
        xmax,
        ids: places,
        count,
    }
}

// The same, the snapshot passed by value.
#[unsafe(no_mangle)]
pub extern "C" fn bench_settled_by_value(
    ids: &[u64],
    count: usize,
    xmax: u64,
    asked: &[u64],
    rounds: u64,
) -> u64 {
    let shown = gathered(ids, count, xmax);
    each_asked(asked, rounds, |id| settled::is_settled(shown, id))
}
