// Files as devices, the trusted edge: a device over a file of std's, and what makes such files.
//
// A file holds the units one after another in rising order, so it has as many bytes as they all. Contracts see a `FileDevice`
// as its layout, how many writes of each unit have succeeded, and how many calls have failed; it does not tell what its file
// holds, since no contract can say what a file gives back. The layer above may rely on these numbers alone.
#![tactic(auto)]

mod device;
mod files;

pub use device::FileDevice;
pub use files::DiskFiles;
