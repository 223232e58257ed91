// A batch decided by one call: what bench/batch times. It promises nothing but safety.
#![tactic(auto)]

// The refusal's number, 0 where the batch is decided.
#[unsafe(no_mangle)]
pub extern "C" fn bench_batch(line: u64, versions: &[[u64; 2]], run: &mut [u8]) -> u64 {
    match batch::decide_batch(line, versions, run) {
        Ok(()) => 0,
        Err(bad) => kinds::number_of(bad.refusal),
    }
}
