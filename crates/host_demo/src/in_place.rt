// A host that owns its table in place: a decision says the answer and the change, and the host stores the change.
use crate::calls::answered;
use crate::say::Left;
use kinds::Stamp;
use std::io;

// A begin. No table is copied.
pub fn begin(rt: &impl Print) -> io::Result<()> {
    let mut t = table::fresh();
    let decided = table::decide_begin(&t.txids, t.counters, Stamp(5));
    table::store(&mut t, decided.change);
    println!(rt; "part=in place")?;
    print!(rt; "begin 5")?;
    answered(rt, decided.answer)?;
    println!(rt; "{}", Left(&t))
}
