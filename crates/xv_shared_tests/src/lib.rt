// Tests of the shared state: a run by its workers in threads. They stand apart so that the shared state is not proved again
// for them.
#![tactic(auto)]

#[cfg(test)]
mod made;
#[cfg(test)]
mod pace;
#[cfg(test)]
mod play;
#[cfg(test)]
mod reader_tests;
#[cfg(test)]
mod row_tests;
#[cfg(test)]
mod run_tests;
