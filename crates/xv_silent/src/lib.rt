// Runs of the migration over devices that tell nothing and fail at random.
//
// What every migration keeps of contents is said where its devices tell what they hold. `Silent` is a device that does
// not, and of whose calls some fail; that it is a device is proved, and the tests of this crate run migrations over two
// of them.
#![tactic(auto)]

mod silent;
#[cfg(test)]
mod tests;

pub use silent::Silent;
