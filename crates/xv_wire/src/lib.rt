// Wires: pipes of bytes, and one in memory whose calls fail by a plan.
//
// Contracts see a wire as its capacity, the bytes in transit and how many calls have failed, and where it tells them its
// plan with what it counts. The layer above may rely on this: bytes come out in the order in which they went in, in any
// pieces; a take answers 0 exactly where it does not fail and nothing is in transit; a call that fails changes no byte in
// transit; and a wire in memory fails exactly by its plan. Only `MemWire::new` takes memory.
#![tactic(auto)]

mod memory;
mod pieces;
mod plan;
mod wire;

pub use memory::MemWire;
pub use plan::WirePlan;
pub use wire::{LEAST_PUT, Wire};
