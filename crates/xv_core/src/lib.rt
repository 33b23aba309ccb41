// The migration over any two devices and any wires: one event is one step.
//
// Contracts see a `Migration` as its job, its journal, the bytes that its guests have read, the contents of the blocks and
// messages on their way, and what its devices and wires tell; its view is the run of the journal. `Parts` are what it is made
// of. The layer above may rely on this: each step answers as the machine does, and the type keeps that the journal is a run,
// the view invariant, where both devices tell what they hold the contents of all, and that what is counted and planned agrees
// with the journal; and a migration comes from all that it came from before. So no write of a guest is lost, by what the
// journal tells (`specs/Losing.antt`). All memory is taken at the start.
#![tactic(auto)]

mod cancels;
mod copying;
mod ending;
mod guest_waits;
mod guests;
mod losing_laws;
mod migration;
mod moving;
mod moving_waits;
mod origin_laws;
mod own_waits;
mod rooms;
mod rounds;
mod settling;
mod starting;
mod stepping;
mod sums;
mod telling;

pub use migration::Migration;
pub use origin_laws::{
    journals_are_short, origins_are_kept, reads_are_told_from_their_place, views_are_stepped,
};
pub use starting::Parts;
pub use telling::fits;
