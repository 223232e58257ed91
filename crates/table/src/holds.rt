// What is proved for any number of slots, at the table's own. Nothing to run: that each function is proved says it.
ghost use Rattle.model.specs.Rows.{AllRowsHold};
ghost use Rattle.model.specs.Promise.{Promise, VacuumPromise};
ghost use Rattle.model.specs.HeldBack.{HolderPromise};

use kinds::SLOTS;

// Every situation at the edges, and every order of refusals.
pub fn rows_hold()
    ensures { AllRowsHold SLOTS }
{}

// The promise to vacuum, and to whoever asks who holds the tiles.
pub fn promise_holds()
    ensures fact { Promise SLOTS }
    ensures fact_2 { VacuumPromise SLOTS }
    ensures fact_3 { HolderPromise SLOTS }
{}
