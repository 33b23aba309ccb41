// Tests of the numbers of progress, of credit, and of the sides and queues of a disk. They stand apart so that those crates are not proved again for them.
#![tactic(auto)]

#[cfg(test)]
mod credit_tests;
#[cfg(test)]
mod filter_tests;
#[cfg(test)]
mod progress_tests;
