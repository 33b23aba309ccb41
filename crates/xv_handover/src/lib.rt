// Two separate nodes hand a guest over, by messages that may be lost, repeated and reordered, and each may restart
// from what it keeps.
//
// Contracts see a node as what it keeps, its keeper's counts of calls and faults, and whether its keeper is steady;
// node A also as whether it has offered. The layer above may rely on this: each call of a node does what its table
// says, or changes nothing where its keeper failed; the keeper is called once where the table keeps something, and
// never else; over every list of calls, deliveries and restarts the two nodes never both own the guest; and when
// node B becomes the owner its number is that of node A's offer. That a handover is ever decided is not promised.
// A script's text is read as the one list of events that it spells, or refused by its first faulty line, and no script's
// text begins another; the lines of the answers are stated functions of the events, their answers and the nodes.
#![tactic(auto)]

mod keeper;
mod kept;
mod laws;
mod memory;
mod message;
mod node_a;
mod node_b;
mod play;
mod print;
mod read;
mod word;
mod world;

pub use keeper::Keeper;
pub use kept::{KeptA, KeptB, Stage};
pub use laws::{
    aborts_have_number_zero, calls_are_events, crashes_are_restarts, cut_scripts_are_unended,
    messages_stay_true, never_two_owners, no_event_fails, no_script_begins_another,
    owner_has_the_offered_number, pass_waits_for_its_message, programs_are_worlds,
};
pub use memory::MemKeeper;
pub use message::{Kind, Message, Reply};
pub use node_a::NodeA;
pub use node_b::NodeB;
pub use play::play_world;
pub use print::{print_reply, print_world};
pub use read::read_world;
pub use world::{World, WorldEvent};
