// Which versions the vacuum may remove (SPEC 17): one decision for each of a batch, or none at all where a version is bad.
// A version is its maker's id and its ender's, 0 for still alive.
#![tactic(auto)]

ghost use Rattle.std.specs.Prelude.{◌≡◌, length, ◌≤◌};
ghost use Rattle.batch.specs.Batch.{ended_below, version_test, judged_from, decision_of, decisions, in_front, batch_of, decisions_left};

use kinds::Refusal;

// A bad version's refusal and place; place 0 beside refusal 12, which reads no version.
#[derive(Clone, Copy, Debug, PartialEq, Eq)]
pub struct BadVersion {
    pub refusal: Refusal,
    pub place: usize,
}

// Whether a version has ended, by an id below the bound. No branch between the two, so that a mixed batch is read as fast as any other.
fn ended_below(bound: u64, ender: u64) -> bool
    ensures { result ≡ ended_below bound ender }
{
    (ender != 0) & (ender < bound)
}

// Refusal 4, then 17.
fn version_test(maker: u64, ender: u64) -> Result<(), Refusal>
    ensures { result ≡ version_test maker ender }
{
    if maker == 0 {
        return Err(Refusal::ZeroTxid);
    }
    if ended_below(maker, ender) {
        return Err(Refusal::EndedBefore);
    }
    Ok(())
}

// The first bad version decides.
fn judge(versions: &[[u64; 2]]) -> Result<(), BadVersion>
    ensures { result ≡ judged_from 0 versions.now }
{
    for (place, version) in versions.iter().enumerate() {
        let [maker, ender] = *version;
        version_test(maker, ender).map_err(|refusal| BadVersion { refusal, place })?;
    }
    Ok(())
}

// 1 where the version may go.
fn decision(line: u64, ender: u64) -> u8
    ensures { result ≡ decision_of line ender }
{
    u8::from(ended_below(line, ender))
}

// A decision for each version, where the run has room for them.
fn write_decisions(line: u64, versions: &[[u64; 2]], run: &mut [u8])
    requires { length versions.now ≤ length run.old }
    ensures { run.new ≡ in_front (decisions line versions.now) run.old }
{
    // By place: of what a zip with the run's `iter_mut` writes, the proof knows no more than the length.
    for (place, version) in versions.iter().enumerate() {
        let [_, ender] = *version;
        run[place] = decision(line, ender);
    }
}

// The decisions of a batch, at the run's start. Refusal 12, then the first bad version's 4 or 17; none of them writes a decision.
pub fn decide_batch(line: u64, versions: &[[u64; 2]], run: &mut [u8]) -> Result<(), BadVersion>
    ensures value { result ≡ batch_of versions.now (length run.old) }
    ensures run_after { run.new ≡ decisions_left line versions.now run.old }
{
    if run.len() < versions.len() {
        return Err(BadVersion {
            refusal: Refusal::NoRoom,
            place: 0,
        });
    }
    judge(versions)?;
    write_decisions(line, versions, run);
    Ok(())
}
