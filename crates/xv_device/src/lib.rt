// Unit devices: what keeps the bytes of a machine's units, one in memory whose calls fail by a plan, what makes devices by
// their names, and a guest's operation on any of them.
//
// Contracts see a `MemDevice` as its layout, a content and a number of successful writes for each unit, its plan
// and what was counted. The layer above may rely on this: a call that succeeds changes exactly the bytes that it
// names, in exactly the unit that it names; a call that fails changes no content and no number of writes; a call
// fails exactly where the plan has its number; and an operation is exactly one call. A device that `Files` makes begins with
// the contents that it was asked for, where it tells them, and with nothing counted.
#![tactic(auto)]

mod bytes;
mod device;
mod files;
mod mem_files;
mod memory;
mod operating;
mod plan;

pub use device::UnitDevice;
pub use files::{Files, MakeFault};
pub use mem_files::MemFiles;
pub use memory::MemDevice;
pub use operating::operate;
pub use plan::DevicePlan;
