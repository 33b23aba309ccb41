//! A line of a script.

use xv_base::{Event, UnitId};

/// A line of a script: an event, or a unit that is asked for.
#[derive(Clone, Copy, Debug, PartialEq, Eq)]
pub enum Line {
    Step(Event),
    Ask(UnitId),
}
