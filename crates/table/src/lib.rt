// The slot table under one name: the fresh table, the ten calls by value, the same calls decided on lent columns, and how a
// change that was decided is stored. What stands above the table knows this crate and the model's definitions.
#![tactic(auto)]

mod holds;

ghost use Rattle.std.specs.Prelude.{◌≡◌};
ghost use Rattle.model.specs.Tables.{fresh_table};

pub use begin_call::{begin_transaction, decide_begin};
pub use changes::{apply, store, store_pin, store_txid, store_xmin};
pub use clock_verdicts::observation_test;
pub use end_call::{decide_end, end_transaction};
pub use finish_call::{decide_finish, finish_transaction};
pub use holds::{promise_holds, rows_hold};
use kinds::SLOTS;
pub use model::{
    Answer, Change, Columns, Counters, Decision, Outcome, SlotChange, SnapshotDecision,
    SnapshotOutcome, Table,
};
pub use oldest_call::{decide_oldest, oldest_snapshot_xmin};
pub use own_call::{create_transaction_snapshot, decide_own, own_test};
pub use pin_call::{create_pinned_snapshot, decide_pin};
pub use snap_call::{create_snapshot, decide_snap};
pub use stamp_call::{decide_stamp, reserve_publication_clock};
pub use unpin_call::{decide_unpin, release_pin};
pub use vacuum_call::{decide_vacuum, vacuum};

// A table with no transaction and no pinned snapshot.
pub fn fresh() -> Table
    ensures { result ≡ fresh_table SLOTS }
{
    Table {
        txids: kinds::zeros(),
        snapshot_xmins: kinds::zeros(),
        pins: kinds::free_pins(),
        counters: Counters {
            clock: 1,
            sampled_clock: 1,
            vacuum_line: 1,
        },
    }
}
