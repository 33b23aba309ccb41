// The program as a function of its words, its input and its output.
//
// `top` does what the table of commands has for its words. `replay` reads all input, checks it whole, plays the script on a
// migration in memory, and writes the transcript, the report in rows or as JSON, and the image; the migration that ran is
// handed out. `gen` writes the job that its number makes, and `drive` drives that job to its end and writes its report, and
// in how many units the guests' owner agrees with the unmigrated guest; both read nothing.
// `handover` reads and checks the same way, plays the script on two nodes, and writes the answers and the nodes. What is
// written is a stated function of what was read, and a refusal names the first faulty line. `replay_on` plays lines on a
// migration over any devices and wires. No write of a guest is lost, and what is printed is that journal: both are said by
// what the journal tells, without the machine.
#![tactic(auto)]

mod command;
mod driving;
mod generating;
mod handover;
mod input;
mod laws;
mod output;
mod playing;
mod program;
mod refusal;

pub use command::Form;
pub use input::{InputError, read_bytes};
pub use laws::{answered_lines_are_those_read, cut_handovers_are_unended, cut_inputs_are_unended};
pub use output::{hand_on, layout_of};
pub use playing::replay_on;
pub use program::{Left, leave, top};
pub use refusal::{refuse_input, refuse_words};
