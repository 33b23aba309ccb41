// A job: what a migration is asked to do, and its text.
//
// Contracts see a `Job` as the record `Written`: its machine, its limits and, for each guest, the operations that its
// trace has as they are written; `job_of` gives the job that the machine runs, with unit operations. The layer above may
// rely on this: every job keeps the limits of a job, and its operations may act. What is read from a text is the job
// whose text begins it, and the text of each job is read as that job, in either job format; else the first faulty line
// is told. `make_job` makes the one large job of a number.

#![tactic(auto)]

mod contents;
mod held;
mod job;
mod laws;
mod limits;
mod line;
mod machine;
mod made;
mod planned;
mod print;
mod reading;
mod traces;
mod word;

pub use job::Job;
pub use laws::{
    jobs_are_first_attempts, jobs_are_read_back, texts_begin_with_one_job, texts_say_jobs,
};
pub use made::make_job;
pub use print::print_job;
pub use reading::read_job;
pub use word::{Call, Word};
pub use xv_text::Place;
