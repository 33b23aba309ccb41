// The migration as a machine of numbers: what each event waits for, what it does, and what is promised of every
// run. There is no engine code here; contracts at every level cite these definitions.
#![tactic(auto)]

pub mod bound_laws;
pub mod contents_laws;
pub mod ending_laws;
pub mod growth_laws;
pub mod journal_laws;
pub mod laws;
pub mod outside_laws;
pub mod play_laws;
pub mod story_laws;
pub mod sum_laws;
pub mod witnesses;
pub mod worked;
