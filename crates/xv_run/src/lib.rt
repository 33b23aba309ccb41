// The command `run`: a job that is run by threads, as a function of its words, its input and its output.
//
// `top_run` reads a job to the end of the input and checks it whole, shares a migration of it among its workers, each a
// thread of its own, does by the driver what they left, and writes the journal's lines, the report with the workers'
// numbers, and the image. What the threads do in which order is theirs: what is written is the text of one journal that
// is a run of the job, and the migration that is left has it. No input that is accepted begins another, and one that is cut
// short is refused for the line that it misses (`laws`). It stands apart from the other commands since their proof takes
// long.
#![tactic(auto)]

mod input;
mod journal;
mod laws;
mod numbers;
mod output;
mod program;
mod running;
mod words;

pub use laws::{cut_jobs_are_unended, no_input_of_run_begins_another};
pub use program::top_run;
