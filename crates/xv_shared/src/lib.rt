// The state that the workers of a migration share: the migration under one lock, for each worker a pass, and the workers
// themselves.
//
// Contracts see the lock's value as what is seen of its migration, a pass as its numbers, and a `Shared` as the identity of
// its words of progress. Four ledgers, `D`, `Q`, `F` and `R`, count entries of the journal: those of guests' events that
// were done, queued and faulted, and all others. Every pass holds a part of its ledgers, so a crew that has all passes has
// counted all entries. `D` also names an origin, which the lock's value keeps.
//
// The layer above may rely on this:
// - `Shared::new` gives the first crew (`first_crew`): of each worker one pass, the guests first, then the copiers, the pager,
//   the senders, the receivers and the applier, no calls made, and of each guest all operations left. It has all passes
//   (`AreAll`: as many of guests and of others as the ledgers have parts), and its reader has seen no numbers. Or it hands the
//   migration back.
// - `Locked::guest` and `Locked::act` do and answer what `step` does on the migration held, and move the pass by the answer;
//   of a guest's step that says that all operations have ended the answer is `NotNow`.
// - `Shared::guest` answers `TraceEnd` exactly where the pass has nothing left, and then takes no lock; every call moves the
//   pass by its answer, and the answer is one of a migration of the origin (`WasAnswered`, `WasTold`).
// - A call that may wait for the lock takes the runtime.
// - `run_workers` takes a whole crew and leaves one: each pass is of the same worker, with at most four times the bound of the
//   journal in further calls, and a guest's has nothing left to begin, or just as many further calls, or a number of calls that
//   can rise no more (`HaveRun`). What the workers leave undone is for a driver. That each runs on a thread of its own, and
//   where none can be started on the caller's, no clause says; nor what a `Gate` is told, which may hold up each call of a worker.
// - `Shared::close` takes a crew that has all passes, and gives the migration of the origin with all that every migration
//   keeps. The sums over the passes are the numbers of its entries (`sums`, `entries`), and together the journal's length.
// - `Shared::fits` and `Shared::bound` tell of the origin's job without the lock.
#![tactic(auto)]

mod answers;
mod books;
mod closing;
mod crew;
mod entering;
mod events;
mod gate;
mod ledgers;
mod locked;
mod making;
mod mustering;
mod numbers;
mod passes;
mod shared;
mod turns;
mod workers;

pub use crew::Crew;
pub use events::event_at;
pub use gate::{FreeGate, Gate};
pub use ledgers::{Blanks, Named};
pub use locked::Locked;
pub use passes::{GuestPass, Pass, WorkerPass};
pub use shared::Shared;
pub use workers::run_workers;
