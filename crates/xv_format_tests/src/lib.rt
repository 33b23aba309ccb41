// Tests of the crates that read and print texts: operations, jobs, the report and the image, and the two nodes with their
// scripts. They stand apart so that none of those crates is proved again for them.
#![tactic(auto)]

#[cfg(test)]
mod handover_tests;
#[cfg(test)]
mod handover_text_tests;
#[cfg(test)]
mod job_made_tests;
#[cfg(test)]
mod job_tests;
#[cfg(test)]
mod report_tests;
#[cfg(test)]
mod trace_tests;
