// The script of a replay, and the lines that its events answer.
//
// Contracts see a `Line` as its variants. The layer above may rely on this: what is read are the lines of the one
// script of the job that the whole text is; a text that is none is refused by its first faulty line; and a printed
// line is a stated function of the event, its answer and the bytes read, or of what was asked of a unit. No script's text
// has a line `end`, and no input, a job's text and a script's behind it, begins another (`laws`).
#![tactic(auto)]

mod counts;
mod laws;
mod line;
mod print;
mod read;
mod word;

pub use counts::Counts;
pub use laws::{
    inputs_have_one_script, no_input_begins_another, no_job_begins_another,
    no_script_begins_another, scripts_have_no_line_end,
};
pub use line::Line;
pub use print::{print_probe, print_turn, push_turn};
pub use read::read_events;
pub use word::{Named, Word};
